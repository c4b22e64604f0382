// The register table: every address of 002, figure 6-9 (000, table 2; 004, table 4-1), read after a
// chip reset, then written, and read back where it can be.
use crate::script::Example;

pub const EXAMPLES: [Example; 22] = [
    // "All subsequent accesses will address MR2A unless the pointer is reset to MR1A" (004, 4.1).
    Example {
        name: "register 0, MR1A and MR2A (002, figure 6-9, 6.4.1.1 and 6.4.1.2)",
        script: "r0,0 r0,0 w2,16 w0,19 w0,7 r0,7 w2,16 r0,19 r0,7 r0,7",
        verdict: "as the manual says",
    },
    Example {
        name: "register 8, MR1B and MR2B (002, figure 6-9, 6.4.1.1 and 6.4.1.2)",
        script: "r8,0 r8,0 w10,16 w8,7 w8,15 r8,15 w10,16 r8,7 r8,15 r0,0",
        verdict: "as the manual says",
    },
    // Order 2: "5 no longer covers MR2 bits 7-6." Bit 5 is refused in each mode, and the mode then stays.
    Example {
        name: "register 0, settings of MR1 and MR2 (004, 4.2: receiver RTR, multidrop, transmitter RTS)",
        script: "n0,128 n0,24 w0,19 n0,32 n0,96 n0,160 n0,224 r0,0 w0,135 n0,39 n0,167 r0,135",
        verdict: "01 decides: not modelled, refused with 5",
    },
    Example {
        name: "register 0, channel modes of MR2A (004, 4.2: normal, automatic echo, local loopback, remote loopback)",
        script: "w0,19 r0,0 w0,64 r0,64 w0,128 r0,128 w0,192 r0,192 w0,0 r0,0 w0,223 r0,223 w2,16 r0,19 \
        r0,223 r8,0 r8,0",
        verdict: "as the manual says",
    },
    Example {
        name: "register 8, channel modes of MR2B (004, 4.2: normal, automatic echo, local loopback, remote loopback)",
        script: "w8,19 r8,0 w8,64 r8,64 w8,128 r8,128 w8,192 r8,192 w8,0 r8,0 w8,223 r8,223 w10,16 \
        r8,19 r8,223 r0,0 r0,0",
        verdict: "as the manual says",
    },
    Example {
        name: "register 1, SRA read, CSRA written (002, figure 6-9, 6.4.1.3 and 6.4.1.4)",
        script: "r1,0 w1,187 r1,0",
        verdict: "as the manual says",
    },
    Example {
        name: "register 9, SRB read, CSRB written (002, figure 6-9, 6.4.1.3 and 6.4.1.4)",
        script: "r9,0 w9,187 r9,0",
        verdict: "as the manual says",
    },
    // "Do Not Access" (000, table 2); 004, table 4-1, reads the CSR there and adds "Reading From This
    // Address Is Prohibited In The MC68681."
    Example {
        name: "register 2, do not access, CRA written (002, figure 6-9, note 1)",
        script: "x2,3 w2,5 r1,12 r9,0",
        verdict: "as the manual says; 01 decides: the read is refused with 3, where 004's chip reads CSRA",
    },
    Example {
        name: "register 10, do not access, CRB written (002, figure 6-9, note 1)",
        script: "x10,3 w10,5 r9,12 r1,0",
        verdict: "as the manual says; 01 decides: the read is refused with 3, where 004's chip reads CSRB",
    },
    Example {
        name: "register 3, RBA read, TBA written (002, figure 6-9, 6.4.1.6 and 6.4.1.7)",
        script: "r3,0 w0,19 w0,7 w1,187 w2,5 r1,12 w3,85 r1,0 t48 d0 r1,4 a65 r3,65",
        verdict: "as the manual says",
    },
    Example {
        name: "register 11, RBB read, TBB written (002, figure 6-9, 6.4.1.6 and 6.4.1.7)",
        script: "r11,0 w8,19 w8,7 w9,187 w10,5 r9,12 w11,85 r9,0 t48 e0 r9,4 b65 r11,65",
        verdict: "as the manual says",
    },
    // IPCR bits 7-4 "are cleared when the CPU reads the input port change register" (004, 4.3.14.1).
    Example {
        name: "register 4, IPCR read, ACR written (002, figure 6-9, 6.4.1.8 and 6.4.1.9)",
        script: "r4,15 p254 t185 r5,0 r4,30 r4,14 w4,1 p255 t185 r5,128 r4,31 r5,0 r4,15",
        verdict: "as the manual says",
    },
    Example {
        name: "register 4, a change shorter than 25 microseconds (004, 4.3.14.1; 000, input port: not recognized)",
        script: "p254 t48 p255 t48 r4,31",
        verdict: "01 decides: filters are left for later, so the change is flagged",
    },
    Example {
        name: "register 5, ISR read, IMR written (002, figure 6-9, 6.4.1.10 and 6.4.1.11)",
        script: "r5,0 w2,4 r5,1 i0 k6,0 w5,1 i1 k0,15 r5,1 w5,0 i0",
        verdict: "as the manual says; 01 decides: ISR 0 after a reset, where 002's picture has bit 3 set and its text \
            clears all",
    },
    // "These registers should only be read when the C/T is in counter mode and the counter is stopped."
    Example {
        name: "registers 6 and 7, CUR and CLR read, CTUR and CTLR written (002, figure 6-9, 6.4.1.12 to 6.4.1.15)",
        script: "r6,0 r7,0 w4,48 w6,18 w7,52 r14,0 t16 r15,0 r6,18 r7,51 t64 r7,51",
        verdict: "as the manual says",
    },
    // Input port bit 6 "will reflect the current logic level of IACK" (000, table 6), which is high while
    // no acknowledge is under way; "Input port bits 7, 6 read 1" (01).
    Example {
        name: "register 12, IVR (002, figure 6-9, 6.4.1.16)",
        script: "r12,15 w12,64 r12,64",
        verdict: "as the manual says",
    },
    Example {
        name: "register 13, IP read (002, figure 6-9, 6.4.1.17; 000, table 6, input port)",
        script: "r13,255 p213 r13,213 p42 r13,234",
        verdict: "as the manual says; 01 decides: bit 6 reads 1 where 000 has IACK",
    },
    Example {
        name: "register 13, OPCR written (002, figure 6-9, 6.4.1.18; 004, 4.3.11)",
        script: "w13,240 o255 w2,4 o191 w10,4 o63 w13,0 o255 n13,1 n13,2 n13,3 n13,8 n13,12",
        verdict: "as the manual says; 01 decides: clocks on OP2 and OP3 are refused with 5",
    },
    Example {
        name: "register 14, start counter read, OPR bits set (002, figure 6-9, 6.4.1.19 and 6.4.1.20)",
        script: "r14,0 o255 w14,165 o90 w14,3 o88",
        verdict: "as the manual says; 01 decides: the read, whose data has no meaning, gives 0",
    },
    Example {
        name: "register 15, stop counter read, OPR bits reset (002, figure 6-9, 6.4.1.19 and 6.4.1.21)",
        script: "r15,0 w14,255 o0 w15,15 o15 w15,240 o255",
        verdict: "as the manual says; 01 decides: the read, whose data has no meaning, gives 0",
    },
    // "A hardware reset, assertion of RESET, clears status registers A and B (SRA and SRB), the IMR, the
    // ISR, the OPR, and the OPCR." (000, RESET); IVR is 15.
    Example {
        name: "hardware reset (000, RESET)",
        script: "w2,5 w10,5 w5,1 w12,64 w13,240 w14,15 w3,0 t4864 d0 o48 i1 z r1,0 r9,0 r5,0 r12,15 \
        o255 i0 d1 e1 w2,4 i0 o255",
        verdict: "as the manual says",
    },
    Example {
        name: "hardware reset, the counter/timer's mode (000, RESET: \"places the counter/timer in timer mode\")",
        script: "z w6,0 w7,2 r14,0 p251 p255 r5,0 p251 p255 r5,8",
        verdict: "01 decides: every register is 0, so ACR bits 6-4 choose a counter on IP2, ready after 2 pulses, not \
            4",
    },
];
