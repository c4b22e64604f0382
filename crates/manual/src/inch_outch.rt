// The I/O driver example of 002, section 6.4.2.2: INCH waits for RxRDY and takes a character, OUTCH
// waits for TxRDY and gives one. Their flowchart, figure 6-10, is a picture that the text does not have.
use crate::script::Example;

pub const EXAMPLES: [Example; 4] = [
    Example {
        name: "INCH \"gets a character from the channel receiver\", three times (002, 6.4.2.2)",
        script: "w0,19 w0,7 w1,187 w2,5 t48 r1,12 a65 a66 q1,1 r3,65 g1 a67 q1,1 r3,66 g1 q1,1 r3,67 g1 r1,12 g0",
        verdict: "as the manual says",
    },
    // Order 1: without the wait for RxRDY an old character is read again, and the answer says so; and what a receiver
    // reset drops is not read.
    Example {
        name: "INCH without its wait: what is read again is stale, and so after a receiver reset (order 1)",
        script: "w0,19 w0,7 w1,187 w2,5 t48 r3,0 g0 a65 r3,65 g1 r3,65 g0 a65 a66 r3,65 g1 w2,33 g0 r3,65 g0 t48 a67 \
            r3,67 g1 r3,67 g0",
        verdict: "as order 1 says",
    },
    // 65: start 0, then 1, 0, 0, 0, 0, 0, 1, 0, and stop 1.
    Example {
        name: "OUTCH \"is used to send a character to the channel transmitter\", 65 bit by bit (002, 6.4.2.2)",
        script: "w0,19 w0,7 w1,187 w2,5 q1,4 w3,65 t216 d0 t384 d1 t384 d0 t384 d0 t384 d0 t384 d0 \
        t384 d0 t384 d1 t384 d0 t384 d1 q1,8 d1",
        verdict: "as the manual says",
    },
    // The fourth OUTCH waits until the third character has left the holding register.
    Example {
        name: "OUTCH of 77, 105, 108, 108 and INCH of the same over a wire (002, 6.4.2.2)",
        script: "w0,19 w0,7 w1,187 j w2,5 q1,4 w3,77 q1,4 w3,105 q1,1 r3,77 q1,4 w3,108 q1,4 w3,108 \
        q1,1 r3,105 q1,1 r3,108 q1,1 r3,108 q1,8 r1,12",
        verdict: "as the manual says",
    },
];
