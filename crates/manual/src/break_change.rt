// The interrupt handling of 002, section 6.4.2.3: SIRQ, for a change in break of channel A, by its words: the
// flowchart, figure 6-10, is a picture that the text does not have.
use crate::script::Example;

pub const EXAMPLES: [Example; 3] = [
    // The break is 4,096 ticks low, more than the 3,840 of a character; "The receiver serial-data input must
    // return to a high condition for at least one-half bit time" (004, 3.2): 192 ticks.
    Example {
        name: "SIRQ, change in break of channel A (002, 6.4.2.3)",
        script: "w0,19 w0,7 w1,187 w12,64 w5,4 w2,1 t48 i0 p191 t3584 i0 t512 i1 k0,64 r5,6 w2,80 i0 \
        r5,2 t15360 r5,2 p255 t144 i0 t96 i1 k0,64 r5,6 w2,80 i0 r5,2",
        verdict: "as the manual says",
    },
    // "Only a single FIFO position is occupied when a break is received" (004, 4.3.9.1).
    Example {
        name: "the break's null character, one place of the FIFO, read away (004, 4.3.9.1; 002, 6.4.1.3)",
        script: "w0,19 w0,7 w1,187 w2,1 t48 p191 t20480 r1,129 p255 t384 r3,0 r1,0 a65 r1,1 r3,65",
        verdict: "as the manual says",
    },
    // Start bit and one high bit, then low: the damaged character, and after a character time more the break.
    Example {
        name: "a break that starts in the middle of a character (004, 3.2 and 4.3.9.1)",
        script: "w0,19 w0,7 w1,187 w2,1 t48 p191 t384 p255 t384 p191 t3072 r1,65 r5,2 t4096 r5,6 \
        r1,65 r3,1 r1,129 r3,0 r1,0",
        verdict: "as the manual says",
    },
];
