// ISR bit 3, counter/timer ready, by 004, 4.3.15.5, sentence by sentence: what sets it in each mode, the start of
// order 4, and what clears it. OPCR 4 puts the timer's output on OP3.
use crate::script::Example;

pub const EXAMPLES: [Example; 7] = [
    Example {
        name: "ISR bit 3 in counter mode, \"set when the counter reaches terminal count\" (004, 4.3.15.5)",
        script: "w4,48 w6,0 w7,3 r14,0 t47 r5,0 t1 r5,8",
        verdict: "as the manual says",
    },
    Example {
        name: "ISR bit 3 in timer mode, \"set each time the timer output switches from low to high\" (004, 4.3.15.5)",
        script: "w13,4 w4,96 w6,0 w7,2 r14,0 o255 t2 o247 r5,0 t2 o255 r5,8 r15,0 t2 o247 r5,0 t2 o255 r5,8",
        verdict: "as the manual says",
    },
    // "In both the MC68681 and the MC68HC681, a timer-start command forces the timer output high. In the MC68681, if
    // this caused a low-to-high transition of the timer output, this bit would be set. This is not true in the
    // MC68HC681."
    Example {
        name: "timer start, a low-to-high transition, \"this bit would be set\" (004, 4.3.15.5, the MC68681; order 4)",
        script: "w13,4 w5,8 w4,96 w6,0 w7,2 r14,0 t3 o247 r5,0 i0 r14,0 o255 r5,8 i1 t3 o247 r15,0 r5,0 i0 r14,0 r5,8 \
            i1",
        verdict: "as the manual says",
    },
    Example {
        name: "timer start, the output high already (004, 4.3.15.5)",
        script: "w13,4 w4,96 w6,0 w7,2 r14,0 t1 r14,0 o255 r5,0 t4 r5,8 r14,0 r5,8 r15,0 r14,0 r5,0 t3 r5,0 t1 r5,8",
        verdict: "as the manual says",
    },
    Example {
        name: "timer start, a low-to-high transition and a transmitter on the timer, code 13 (004, 4.3.15.5)",
        script: "w0,19 w0,7 w1,221 w4,96 w6,0 w7,2 r14,0 t3 w2,4 w3,85 r14,0 r5,8 d1 t3 d1 t1 d0",
        verdict: "01 decides: a start gives no pulse, though it sets the bit",
    },
    Example {
        name: "ISR bit 3, another mode raises the output (004, 4.3.15.5: \"each time the timer output switches\")",
        script: "w13,4 w4,96 w6,0 w7,2 r14,0 t3 o247 w4,112 o255 r5,0",
        verdict: "01 decides: a change of ACR 6-4 drives the output high, setting no bit",
    },
    Example {
        name: "ISR bit 3: \"In either mode, the bit is cleared by a C/T stop command.\" (004, 4.3.15.5)",
        script: "w4,48 w6,0 w7,1 r14,0 t16 r5,8 r15,0 r5,0 w4,96 w7,2 r14,0 t4 r5,8 r15,0 r5,0",
        verdict: "as the manual says",
    },
];
