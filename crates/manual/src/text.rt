// What is printed: numbers with places, the names of the registers, verdicts.
use std::fmt;
use std::fmt::Display;

// A write that fails is passed over.
pub fn print<D: Display + Drop>(rt: &impl Print, text: D) {
    let _ = rt.print(text);
}

// Three places: 563 is 0.563.
#[derive(Clone, Copy)]
pub struct Thousandths(pub u64);

impl Display for Thousandths {
    fn fmt<W: fmt::Write>(&self, f: &mut fmt::Formatter<W>) -> fmt::Result {
        write!(f, "{}.{:03}", self.0 / 1000, self.0 % 1000)
    }
}

// A place only where it is not 0: 1345 is 134.5 and 500 is 50.
#[derive(Clone, Copy)]
pub struct Tenths(pub u64);

impl Display for Tenths {
    fn fmt<W: fmt::Write>(&self, f: &mut fmt::Formatter<W>) -> fmt::Result {
        write!(f, "{}", self.0 / 10)?;
        match self.0 % 10 {
            0 => Ok(()),
            tenths => write!(f, ".{tenths}"),
        }
    }
}

// What comes out of a comparison, at the end of its line.
pub fn print_verdict(rt: &impl Print, agrees: bool, verdict: &str) {
    let said = if agrees { verdict } else { "DIFFERS" };
    print(rt, format_args!(" {said}\n"));
}

const READ_NAMES: [&str; 16] = [
    "MRA",
    "SRA",
    "register 2",
    "RBA",
    "IPCR",
    "ISR",
    "CUR",
    "CLR",
    "MRB",
    "SRB",
    "register 10",
    "RBB",
    "IVR",
    "IP",
    "start",
    "stop",
];

const WRITE_NAMES: [&str; 16] = [
    "MRA",
    "CSRA",
    "CRA",
    "TBA",
    "ACR",
    "IMR",
    "CTUR",
    "CTLR",
    "MRB",
    "CSRB",
    "CRB",
    "TBB",
    "IVR",
    "OPCR",
    "OPR set",
    "OPR reset",
];

// A register as it is read.
pub fn read_name(register: u8) -> &'static str {
    READ_NAMES[usize::from(register % 16)]
}

// A register as it is written.
pub fn write_name(register: u8) -> &'static str {
    WRITE_NAMES[usize::from(register % 16)]
}
