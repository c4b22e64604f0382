// The command table: each row of 004, 4.3.7.2 to 4.3.7.4, what it changes and what it leaves.
use crate::script::Example;

pub const EXAMPLES: [Example; 19] = [
    Example {
        name: "command 000, no command (004, 4.3.7.2)",
        script: "w0,19 w0,7 w2,5 r1,12 w2,0 r1,12 r0,7 d1",
        verdict: "as the manual says",
    },
    Example {
        name: "command 001, reset mode register pointer (004, 4.3.7.2; bit 7 not used, 4.3.7.1)",
        script: "w0,19 w0,7 w2,5 r0,7 w2,16 r0,19 r0,7 r1,12 w2,144 r0,19 r0,7",
        verdict: "as the manual says",
    },
    Example {
        name: "command 010, reset receiver (004, 4.3.7.2)",
        script: "w0,19 w0,7 w1,187 w2,5 t48 a1 a2 a3 r1,15 w2,32 r1,12 a4 r1,12 w2,17 t48 a5 r1,13 \
        r3,5 r0,19 r0,7",
        verdict: "as the manual says",
    },
    Example {
        name: "command 011, reset transmitter (004, 4.3.7.2)",
        script: "w0,19 w0,7 w1,187 w2,5 w3,0 t48 w3,1 d0 r1,0 w2,48 d1 r1,0 t7936 d1 a65 r1,1 r3,65",
        verdict: "as the manual says",
    },
    Example {
        name: "reset and enable transmitter in one word (004, 4.3.7: conflicting, \"cannot be specified in a single \
            command word\")",
        script: "w2,4 r1,12 w2,52 r1,12",
        verdict: "01 decides: bits 6-4 first, then bits 3-2",
    },
    // Even parity and eight bits: the high bit after the data of 85 is a wrong parity bit, and of 84 a right one.
    Example {
        name: "command 100, reset error status (004, 4.3.7.2)",
        script: "w0,3 w0,7 w1,187 w2,5 t48 a85 t384 r1,45 a84 t384 a51 t384 a1 t384 r1,47 a2 t384 \
        r1,63 w2,64 r1,15 r3,85 r1,15 r3,84 r1,45 r3,51 r1,13 r3,2 r1,12",
        verdict: "as the manual says",
    },
    Example {
        name: "command 101, reset break change interrupt (004, 4.3.7.2)",
        script: "w0,19 w0,7 w1,187 w2,1 t48 p191 t4096 r5,6 r1,129 w2,80 r5,2 r1,129",
        verdict: "as the manual says",
    },
    // 85 in the holding register: its ten bits in their middles, and then low.
    Example {
        name: "command 110, start break, transmitter empty (004, 4.3.7.2: \"delayed up to two bit times\")",
        script: "w0,19 w0,7 w1,187 w2,4 w2,96 t768 d0 t15360 d0 r1,12 r0,7",
        verdict: "as the manual says",
    },
    Example {
        name: "command 110, start break, a character held (004, 4.3.7.2: the break \"will be delayed until that \
            character\" is sent)",
        script: "w0,19 w0,7 w1,187 w2,4 w3,85 w2,96 t216 d0 t384 d1 t384 d0 t384 d1 t384 d0 t384 d1 \
        t384 d0 t384 d1 t384 d0 t384 d1 t384 d0 t15360 d0",
        verdict: "as the manual says; 01 decides: 004 before 002, which sends the held character after the break",
    },
    Example {
        name: "command 110, start break while disabled (002, 6.4.1.5: \"must be enabled for this command to be \
            accepted\")",
        script: "w0,19 w0,7 w1,187 w2,96 t768 d1",
        verdict: "as the manual says",
    },
    Example {
        name: "command 111, stop break (004, 4.3.7.2: high \"within two bit times\" and \"for one bit time before the \
            next character\")",
        script: "w0,19 w0,7 w1,187 w2,4 w2,96 t768 w3,0 d0 w2,112 d1 r1,0 t384 d1 t48 d0 r1,4",
        verdict: "as the manual says; 01 decides: high at once",
    },
    Example {
        name: "transmitter command 01, enable (004, 4.3.7.3; 002, 6.4.1.5: \"TxEMP and TxRDY bits in the DUSR are \
            also set\")",
        script: "r1,0 w2,4 r1,12 w2,4 r1,12 r9,0",
        verdict: "as the manual says",
    },
    Example {
        name: "transmitter command 10, disable (004, 4.3.7.3: \"the transmission of the character is completed\")",
        script: "w0,19 w0,7 w1,187 w2,4 w3,129 t216 d0 w2,8 r1,0 t384 d1 t384 d0 t1920 d0 t384 d1 \
        t768 d1 r1,0",
        verdict: "as the manual says",
    },
    Example {
        name: "transmitter command 11, do not use (004, 4.3.7.3)",
        script: "w2,4 f2,12 r1,12",
        verdict: "01 decides: refused with 4, nothing altered",
    },
    Example {
        name: "receiver command 01, enable (004, 4.3.7.4)",
        script: "w0,19 w0,7 w1,187 a65 r1,0 w2,1 t48 a65 r1,1 r3,65 r1,0",
        verdict: "as the manual says",
    },
    Example {
        name: "receiver command 01, enable again in a character (004, 4.3.7.4: \"forces the receiver into the \
            search-for-start-bit state\")",
        script: "w0,19 w0,7 w1,187 w2,1 t48 p191 t384 p255 w2,1 t3840 r1,1 r3,255",
        verdict: "01 decides: enabling it again changes nothing, so the character arrives",
    },
    Example {
        name: "receiver command 10, disable (004, 4.3.7.4: \"a character being received\" is lost, no effect on the \
            status bits)",
        script: "w0,19 w0,7 w1,187 w2,1 t48 a65 r1,1 p191 t1024 w2,2 p255 t3840 r1,1 r3,65 r1,0",
        verdict: "as the manual says",
    },
    Example {
        name: "receiver command 10, disable with one waiting (004, 4.3.7.4: \"waiting in the shift register\" is lost)",
        script: "w0,19 w0,7 w1,187 w2,1 t48 a1 a2 a3 a4 w2,2 r3,1 r1,3 r3,2 r3,3 r3,4 r1,0",
        verdict: "01 decides: a disable drops the character being put together, no more, so the fourth is read",
    },
    Example {
        name: "receiver command 11, do not use (004, 4.3.7.4)",
        script: "w2,1 f2,3 r1,0",
        verdict: "01 decides: refused with 4, nothing altered",
    },
];
