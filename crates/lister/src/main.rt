// "The frame lister (program) sends standard input on A as in case 4, one line of ten mid-bit levels per byte, no header."
#![tactic(auto)]

use input_bytes::InputBytes;
use lister_line::{list_byte, prepared};

// To the end of the input, or until a write fails.
fn main(rt: HostRuntime) {
    let mut device = prepared();
    for byte in InputBytes::new(rt.stdin()) {
        let listed = list_byte(device, byte);
        let line = listed.line;
        if rt.write_all(&line).is_err() {
            break;
        }
        device = listed.state;
    }
}
