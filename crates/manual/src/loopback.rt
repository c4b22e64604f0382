// The looping modes, MR2 bits 7-6 (004, 3.3 and 4.3.2.1; 002, 6.3.3): 01 automatic echo, 10 local loopback, 11 remote
// loopback. Document 02, order 2, says what they are here; MR2 7 is normal mode, 71, 135 and 199 are the three.
use crate::script::Example;

pub const EXAMPLES: [Example; 28] = [
    // Both channels clocked at 1X by IP3 and IP5; A with even parity, B with odd, each with block errors, so that SR
    // shows the marks of all 256 characters. The first pulse is the high that a receiver just enabled must sample. At
    // the end the buffers repeat the last bytes: A went up, and B down.
    Example {
        name: "start-up test, both channels in local loopback, 0 to 255 in A and 255 to 0 in B (order 2; 004, 3.3.2)",
        script: "w0,35 w0,135 w1,255 w2,5 w8,39 w8,135 w9,255 w10,5 p215 p255 l256 d1 e1 r1,12 r9,12 \
        r3,255 g0 r11,0 g0",
        verdict: "as order 2 says",
    },
    Example {
        name: "01's case 7 in local loopback, 1 to 5 sent (order 2: \"the same reads and the same SR bits 4, 1 and \
            0\")",
        script: "w0,19 w0,135 w1,187 w2,5 t24 w3,1 q1,4 w3,2 q1,4 w3,3 q1,4 w3,4 q1,8 r1,15 w3,5 t215 \
        r1,7 t1 r1,23 q1,8 r1,31 r3,1 r3,2 r3,3 r3,5 g1 r1,28",
        verdict: "as order 2 says",
    },
    // 85 in ten bits of 384 ticks: its stop bit is sampled on its ninth pulse, the 153rd after the write, 3,672 ticks.
    Example {
        name: "local loopback, \"The transmit clock is used for the receiver\": 9600, the receiver's own 300 (004, \
            4.3.2.1)",
        script: "w0,19 w0,135 w1,75 w2,5 t24 w3,85 t3671 r1,4 t1 r1,5 r3,85 g1",
        verdict: "as the manual says",
    },
    Example {
        name: "local loopback, \"The channel A receiver serial-data input is ignored\" (004, 4.3.2.1)",
        script: "w0,19 w0,135 w1,187 w2,5 t24 a65 r1,12 p191 w3,85 q1,1 r3,85 t20480 r1,12 r5,1 d1",
        verdict: "as the manual says",
    },
    Example {
        name: "local loopback, a break is sent and received, TxDA high (004, 4.3.2.1, 4.3.7.2 and 4.3.9.1)",
        script: "w0,19 w0,135 w1,187 w2,5 t24 w2,96 t3671 r5,1 t1 r5,7 r1,141 d1 w2,80 r5,3 w2,112 t168 \
        r5,3 t24 r5,7 d1 r3,0 r1,12 w3,85 q1,1 r1,5 r3,85",
        verdict: "as the manual says",
    },
    // 004, 4.3.7.4, says it of the disable too: "the receiver operates even if it is disabled".
    Example {
        name: "local loopback, receiver not enabled (004, 4.3.2.1: \"the receiver need not be enabled\")",
        script: "w0,19 w0,135 w1,187 w2,4 t24 w3,85 t4096 r1,12 r3,0 g0 w2,1 t24 w3,85 t4096 r1,13 r3,85 \
        g1 w2,2 w3,90 t4096 r1,12 r3,85 g0",
        verdict: "document 02 decides: the enable is not in its list of what is other here, so a disabled receiver \
            receives nothing",
    },
    Example {
        name: "local loopback, CTSA (order 2: \"CTS still counts\"; 004, 4.3.2.3)",
        script: "w0,19 w0,151 w1,187 w2,5 t24 w3,85 t4096 r1,0 p254 t384 r1,4 p255 q1,1 r1,5 r3,85 d1",
        verdict: "as the manual says",
    },
    // 85 comes in on RxDA, a bit in 384 ticks; the transmitter's own clock is set to 300. The first fall is 24 ticks
    // before the receiver's next pulse, which passes it on.
    Example {
        name: "automatic echo, 85 bit by bit: \"reclocked and retransmitted\", by the receive clock (004, 4.3.2.1)",
        script: "w0,19 w0,71 w1,180 w2,1 t48 d1 p191 t23 d1 t1 d0 t360 d0 p255 t384 d1 p191 t384 d0 \
        p255 t384 d1 p191 t384 d0 p255 t384 d1 p191 t384 d0 p255 t384 d1 p191 t384 d0 p255 \
        t384 d1 r1,1 r3,85 g1 r1,0",
        verdict: "as the manual says",
    },
    Example {
        name: "automatic echo, \"The receiver must be enabled\" (004, 4.3.2.1)",
        script: "w0,19 w0,71 w1,187 w2,1 t48 p191 t24 d0 w2,2 d1 t384 d1 w2,1 d1 t23 d1 t1 d0 w2,33 d1 t24 d0",
        verdict: "as the manual says; document 02 decides: TxD is high while it is disabled",
    },
    // A wrong parity bit after a zero; a low stop bit after 255; a break of five characters' time, and a character.
    Example {
        name: "automatic echo, \"The received parity is checked, but is not recalculated for transmission\" (004, \
            4.3.2.1)",
        script: "w0,3 w0,71 w1,187 w2,1 t48 p191 t3456 d0 p255 t384 d1 t384 d1 r1,33 r3,0 g1",
        verdict: "as the manual says",
    },
    Example {
        name: "automatic echo, \"framing is checked but the stop bits are retransmitted as received\" (004, 4.3.2.1)",
        script: "w0,19 w0,71 w1,187 w2,1 t48 p191 t384 d0 p255 t3072 d1 p191 t384 d0 p255 t384 d1 r1,65 \
        r3,255 g1",
        verdict: "as the manual says",
    },
    Example {
        name: "automatic echo, \"A received break is echoed as received\" (004, 4.3.2.1)",
        script: "w0,19 w0,71 w1,187 w2,1 t48 p191 t4096 d0 r1,129 r5,6 t15360 d0 p255 t24 d1 t384 r3,0 \
        r1,0 a65 d1 r1,1 r3,65",
        verdict: "as the manual says",
    },
    // "the CPU-to-transmitter link is disabled" (004, 4.3.2.1); order 2: "no character or break starts".
    Example {
        name: "automatic echo, \"transmitter ready and transmitter empty status bits are inactive\" (004, 4.3.2.1 and \
            4.3.15.8)",
        script: "w0,19 w0,7 w13,64 w5,1 w2,5 r1,12 r5,1 i1 o191 w0,71 r1,0 r5,0 i0 o255 k6,0 w0,7 r1,12 \
        r5,1 i1 o191",
        verdict: "as the manual says",
    },
    Example {
        name: "automatic echo, a character is written (004, 4.3.2.1: \"the CPU-to-transmitter link is disabled\")",
        script: "w0,19 w0,71 w1,187 w2,5 w3,85 t24 d1 t3816 d1 r1,0 w0,7 d1 r1,0 t24 d0 r1,4 t384 d1",
        verdict: "as the manual says; document 02 decides: the holding place stays, so it is sent in normal mode",
    },
    Example {
        name: "automatic echo, start break (004, 4.3.2.1: \"the CPU-to-transmitter link is disabled\")",
        script: "w0,19 w0,71 w1,187 w2,5 w2,96 t768 d1 w0,7 d1 t24 d0 t7680 d0",
        verdict: "as the manual says; document 02 decides: no break starts, and the one asked for starts in normal \
            mode",
    },
    // "3 reset transmitter (disabled, all dropped, TxD high)" (01): up to the receiver's next pulse.
    Example {
        name: "automatic echo, reset and disable transmitter, stop break (004, 4.3.7.2 and 4.3.7.3)",
        script: "w0,19 w0,71 w1,187 w2,5 t48 p191 t24 d0 w2,48 d1 t23 d1 t1 d0 w2,8 d0 w2,112 d0 t24 d0",
        verdict: "01 decides: a reset has TxD high; at its next pulse the receiver echoes again",
    },
    Example {
        name: "remote loopback, 85 bit by bit: echoed, \"Received data cannot be read by the local CPU\" (004, \
            4.3.2.1)",
        script: "w0,19 w0,199 w1,180 w2,1 t48 d1 p191 t23 d1 t1 d0 t360 d0 p255 t384 d1 p191 t384 d0 \
        p255 t384 d1 p191 t384 d0 p255 t384 d1 p191 t384 d0 p255 t384 d1 p191 t384 d0 p255 \
        t384 d1 r1,0 r5,0 r3,0 g0",
        verdict: "as the manual says",
    },
    Example {
        name: "remote loopback, wrong parity bit, low stop bit, break: echoed, not checked (004, 4.3.2.1)",
        script: "w0,3 w0,199 w1,187 w2,1 t48 p191 t3456 d0 p255 t384 d1 p191 t384 d0 p255 t384 d1 r1,0 \
        p191 t20480 d0 r1,0 r5,0 p255 t384 d1 r1,0 r5,0",
        verdict: "as the manual says",
    },
    Example {
        name: "remote loopback, \"The receiver must be enabled\" (004, 4.3.2.1)",
        script: "w0,19 w0,199 w1,187 w2,1 t48 p191 t24 d0 w2,2 d1 t384 d1 w2,1 d1 t23 d1 t1 d0 w2,33 d1 t24 d0",
        verdict: "as the manual says; document 02 decides: TxD is high while it is disabled",
    },
    Example {
        name: "remote loopback, a character held before (004, 4.3.2.1: cannot be read, \"the error status conditions \
            are inactive\")",
        script: "w0,3 w0,7 w1,187 w2,1 t48 a85 t384 r1,33 w0,199 r1,33 a66 t384 r1,33 r3,85 g1 r1,0 \
        r3,85 g0",
        verdict: "document 02 decides: no character is put together, and no more, so it is read, with its mark",
    },
    Example {
        name: "remote loopback, TxRDY and TxEMT, and a character is written (004, 4.3.2.1: nothing of them; 3.3.3: \
            link disabled)",
        script: "w0,19 w0,7 w1,187 w2,5 r1,12 r5,1 w0,199 r1,0 r5,0 w3,85 t24 d1 t3816 d1 r1,0 w0,7 d1 \
        r1,0 t24 d0 r1,4",
        verdict: "document 02 decides: the same echo, so both read 0 and the character is sent in normal mode",
    },
    // B answers to RxDB, and A to RxDA; B's first low is too short for a start.
    Example {
        name: "channel B in automatic echo, A in remote loopback (004, 4.3.4: MR2B's bits \"identical to\" MR2A's)",
        script: "w0,19 w0,199 w1,187 w2,1 w8,19 w8,71 w9,187 w10,1 t48 d1 e1 p127 t24 d1 e0 p191 t24 d0 e1 \
        p255 t24 d1 e1 b65 a66 r9,1 r11,65 g1 r1,0 r3,0 g0",
        verdict: "as the manual says",
    },
    // "Switching between modes should be done only while the channel is disabled." (004, 4.3.2.1) 0 is being sent, and
    // 85 held: 85 goes after the return, bit by bit.
    Example {
        name: "mode change while sending (002, 6.3.3: \"activated immediately upon mode selection\")",
        script: "w0,19 w0,7 w1,187 w2,5 w3,0 t24 d0 w3,85 t384 d0 r1,0 w0,71 d1 r1,0 t3840 d1 w0,7 d1 \
        t24 d0 r1,4 t384 d1 t384 d0 t384 d1 t384 d0 t384 d1 t384 d0 t384 d1 t384 d0 t384 d1 \
        t384 d1 r1,12",
        verdict: "as the manual says; document 02 decides: 0 is dropped, and the holding place stays",
    },
    Example {
        name: "mode change while sending a break (002, 6.3.3: \"activated immediately upon mode selection\")",
        script: "w0,19 w0,7 w1,187 w2,4 w2,96 t24 d0 w3,0 w0,135 d1 w0,7 d1 t24 d0 r1,4 t3432 d0 t24 d1 \
        t3840 d1 r1,12",
        verdict: "as the manual says; document 02 decides: the break is dropped, and TxD is high until the next \
            pulse, no longer",
    },
    Example {
        name: "MR2 written while sending, in the same mode (004, 4.3.2)",
        script: "w0,19 w0,7 w1,187 w2,5 w3,0 t24 d0 w0,15 d0 t3432 d0 t24 d1 t3840 r1,12 r0,15",
        verdict: "document 02 decides: no mode change, so the character is sent",
    },
    // The receiver's part, and the echo's: RxDA is low from one echo mode to the other, and TxDA high up to the next
    // pulse.
    Example {
        name: "mode change while receiving (002, 6.3.3: \"activated immediately upon mode selection\")",
        script: "w0,19 w0,7 w1,187 w2,1 t48 a65 r1,1 p191 t1024 w0,71 d1 t24 d0 p255 t4096 d1 r1,1 r3,65 \
        r1,0 a66 r1,1 r3,66",
        verdict: "as the manual says; document 02 decides: what is put together is dropped, and an enabled receiver \
            is as just enabled",
    },
    Example {
        name: "mode change in a received break (002, 6.3.3: \"activated immediately upon mode selection\")",
        script: "w0,19 w0,7 w1,187 w2,1 t48 p191 t4096 r1,129 r5,6 w0,71 r1,129 r5,6 w2,80 r5,2 p255 t384 \
        r1,129 r5,2 r3,0 r1,0 a65 r3,65",
        verdict: "as the manual says; document 02 decides: the wait for its end is dropped, and what is held and told \
            stays",
    },
    Example {
        name: "mode change from automatic echo to remote loopback (002, 6.3.3: \"activated immediately upon mode \
            selection\")",
        script: "w0,19 w0,71 w1,187 w2,1 t48 p191 t24 d0 w0,199 d1 t23 d1 t1 d0 p255 t3840 d1 r1,0",
        verdict: "as the manual says; document 02 decides: TxD is high until the next pulse",
    },
];
