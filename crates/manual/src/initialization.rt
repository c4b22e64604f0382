// The initialization sequence of 002, section 6.5, and SINIT with CHCHK of 6.4.2.1, by its words: the
// flowchart, figure 6-10, is a picture that the text does not have.
use crate::script::Example;

pub const EXAMPLES: [Example; 7] = [
    // The manual gives the steps and no values. Reset receivers and transmitters; vector 64; receiver
    // interrupts; set 2, IP0's change, no timer; OP5 and OP4 are the receivers'; both at 9600; A eight bits, no
    // parity, one stop bit; B seven bits, odd parity, FIFO-full notification, block errors, two stop bits;
    // enable. Then what is held.
    Example {
        name: "initialization sequence, both channels, the steps of 002 with values chosen here (002, 6.5)",
        script: "w2,32 w2,48 w10,32 w10,48 w12,64 w5,34 w4,129 w13,48 w1,187 w0,19 w0,7 w2,5 w9,187 \
        w8,102 w8,15 w10,5 r12,64 r0,7 w2,16 r0,19 r0,7 r8,15 w10,16 r8,102 r8,15 r1,12 \
        r9,12 r5,17 r4,15 r13,255 o255 i0",
        verdict: "as the manual says",
    },
    Example {
        name: "initialization sequence of channel A, then a character comes in (002, 6.5 and 6.3.6.3)",
        script: "w2,32 w2,48 w12,64 w5,34 w4,129 w13,48 w1,187 w0,19 w0,7 w2,5 t48 a90 r1,13 r5,3 i1 \
        o239 k0,64 r3,90 r1,12 i0 o255",
        verdict: "as the manual says",
    },
    // CHCHK's four errors: transmitter never ready, receiver never ready, parity error (SR bit 5),
    // incorrect character received. "SINIT places the specified channel in the local loopback mode"; "A receiver just
    // enabled must sample a high before a low counts" (01), so a pulse, 24 ticks, comes before the character. Then both
    // sides are disabled for the change of mode (6.3.3), and SINIT's channels are enabled.
    Example {
        name: "SINIT and CHCHK, channel A (002, 6.4.2.1)",
        script: "w2,32 w2,48 w1,187 w0,3 w0,135 w2,5 t24 q1,4 w3,85 q1,1 r1,5 r3,85 q1,8 r1,12 d1 w2,10 \
        w0,7 w2,5 r0,7 r1,12 d1 w3,0 t24 d0",
        verdict: "as the manual says",
    },
    Example {
        name: "SINIT and CHCHK, channel B (002, 6.4.2.1)",
        script: "w10,32 w10,48 w9,187 w8,3 w8,135 w10,5 t24 q9,4 w11,170 q9,1 r9,5 r11,170 q9,8 r9,12 e1 \
        w10,10 w8,7 w10,5 r8,7 r9,12 e1 w11,0 t24 e0",
        verdict: "as the manual says",
    },
    // What CHCHK finds with the transmitter not enabled, and where the character follows the enable with no pulse
    // between: its start bit is then no start. Of 0 nothing is left; of 85 bit 1 is the start, with the parity and the
    // stop bit for data bits 6 and 7, and the idle line for the parity bit.
    Example {
        name: "CHCHK, transmitter never ready: not enabled (002, 6.4.2.1; 004, 4.3.2.1: \"The transmitter must be \
            enabled\")",
        script: "w1,187 w0,3 w0,135 w2,1 t24 r1,0 w3,85 t4608 r1,0 r3,0 g0",
        verdict: "as the manual says",
    },
    Example {
        name: "CHCHK, receiver never ready: 0 written before a pulse has passed (002, 6.4.2.1)",
        script: "w1,187 w0,3 w0,135 w2,5 w3,0 t4608 r1,12 r3,0 g0 w3,85 q1,1 r1,5 r3,85",
        verdict: "01 decides: a receiver just enabled must sample a high before a low counts",
    },
    Example {
        name: "CHCHK, parity error and incorrect character: 85 written before a pulse has passed (002, 6.4.2.1)",
        script: "w1,187 w0,3 w0,135 w2,5 w3,85 t4608 r1,12 t216 r1,45 r3,149 w3,85 q1,1 r1,5 r3,85",
        verdict: "01 decides: a receiver just enabled must sample a high before a low counts",
    },
];
