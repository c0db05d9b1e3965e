//! Faults of the program, as they are printed.

ghost use Rattle.std.specs.Prelude.{◌≡◌, ◌⊎◌, ◌∷◌, IfOk};
ghost use Rattle.plan_text.specs.Bytes.{space};
ghost use Rattle.plan_printing.specs.Faults as defined;

use plan_scope::ScopeFault;
use plan_text::Items;
use std::alloc::{AllocError, Global};

/// The reason why the program refuses, and the details that are printed.
#[derive(Drop)]
pub struct PlanFault {
    /// The number of the fault: 1 to 136.
    pub number: u8,
    /// The text that is printed after the fault's name, such as ` build.ninja:5` or ` a -> b`.
    pub rest: Items<u8>,
}

/// Returns the name of a fault that isn't about reading a manifest or an image. A number without a name of its own
/// means that memory ran out.
fn late_name_of(number: u8) -> &'static str
    ensures { result.now ≡ defined.late_name_of number }
{
    match number {
        100 => "Limit",
        110 => "NotEnabled",
        112 => "BadTarget",
        120 => "NoMemory",
        121 => "NoLane",
        122 => "OtherBoard",
        130 => "BadTrace",
        132 => "UnknownTarget",
        133 => "FileFault",
        134 => "TracesDiffer",
        135 => "NoSource",
        136 => "NoSourceOfManifest",
        _ => "Memory",
    }
}

/// Returns the name that is printed after the number of a fault.
fn name_of(number: u8) -> &'static str
    ensures { result.now ≡ defined.name_of number }
{
    match number {
        1 => "TabBlank",
        2 => "NulByte",
        3 => "BadEscape",
        4 => "SourceTooLong",
        10 => "ExpectedName",
        11 => "ExpectedEquals",
        12 => "ExpectedColon",
        13 => "ExpectedPath",
        14 => "UnexpectedIndent",
        15 => "UnknownRuleVariable",
        16 => "NoCommand",
        17 => "BadPool",
        18 => "Validation",
        19 => "ExpectedLineEnd",
        20 => "SourceMissing",
        21 => "IncludeDepth",
        30 => "DuplicateRule",
        31 => "UnknownRule",
        32 => "DuplicatePool",
        33 => "UnknownPool",
        34 => "RuleCycle",
        35 => "EmptyPath",
        36 => "Dyndep",
        37 => "Rspfile",
        38 => "DepsKind",
        39 => "PathTooLong",
        40 => "TextTooLong",
        42 => "BadDepth",
        50 => "TwoProducers",
        51 => "Cycle",
        52 => "UnknownDefault",
        53 => "TooManyEdges",
        60 => "BadMagic",
        61 => "BadVersion",
        62 => "Truncated",
        63 => "Trailing",
        64 => "BadTag",
        65 => "Limit",
        67 => "BadOrder",
        68 => "BadBody",
        70 => "EmptyStack",
        71 => "WrongKind",
        72 => "BadSlot",
        73 => "UnsetSlot",
        74 => "BadJump",
        75 => "ShapesDiffer",
        76 => "NotHolding",
        77 => "Holding",
        78 => "TooDeep",
        79 => "BadWait",
        80 => "BadFile",
        81 => "BadText",
        82 => "BadPool",
        83 => "FallsOff",
        84 => "DeadCode",
        85 => "PathsInSlot",
        87 => "ValuesLeft",
        _ => late_name_of(number),
    }
}

impl PlanFault {
    /// Returns the line that is printed: `plan: NUMBER NAME`, the rest, and a newline.
    pub fn line(&self, alloc: Global) -> Result<Vec<u8>, AllocError>
        ensures { IfOk result (λ line. line.items ≡ defined.line_of self.now) }
    {
        let number = self.number.to_string(alloc)?;
        let mut line = Vec::from_slice(alloc, b"plan: ")?;
        line.extend_from_slice(number.as_bytes())?;
        line.push(b' ')?;
        line.extend_from_slice(name_of(self.number).as_bytes())?;
        line.extend_from_slice(self.rest.as_slice())?;
        line.push(b'\n')?;
        Ok(line)
    }
}

/// Creates the fault that the program itself ran out of memory: 131.
pub fn no_memory(alloc: Global) -> PlanFault
    ensures { result ≡ defined.no_memory }
{
    PlanFault {
        number: 131,
        rest: Items::empty(alloc),
    }
}

/// Returns ` PATH`.
fn space_before(alloc: Global, path: &[u8]) -> Result<Vec<u8>, AllocError>
    ensures { IfOk result (λ text. text.items ≡ space ∷ path.now) }
{
    let mut text = Vec::new(alloc);
    text.push(b' ')?;
    text.extend_from_slice(path)?;
    Ok(text)
}

/// Returns ` PATH:OFFSET`.
fn place(alloc: Global, path: &[u8], offset: u64) -> Result<Vec<u8>, AllocError>
    ensures { IfOk result (λ text. text.items ≡ defined.place path.now offset) }
{
    let digits = offset.to_string(alloc)?;
    let mut text = Vec::new(alloc);
    text.push(b' ')?;
    text.extend_from_slice(path)?;
    text.push(b':')?;
    text.extend_from_slice(digits.as_bytes())?;
    Ok(text)
}

/// Creates the fault that a write to standard output failed: 133 ` -`.
pub fn output_fault(alloc: Global) -> Result<PlanFault, AllocError>
    ensures { IfOk result (λ fault. fault ≡ defined.output_fault) }
{
    Ok(PlanFault {
        number: 133,
        rest: Items::new(Vec::from_slice(alloc, b" -")?),
    })
}

/// Like `output_fault`, but returns `no_memory` if memory runs out.
pub fn lost_output(alloc: Global) -> PlanFault
    ensures { (result ≡ defined.output_fault) ⊎ (result ≡ defined.no_memory) }
{
    match output_fault(alloc) {
        Ok(fault) => fault,
        Err(_) => no_memory(alloc),
    }
}

/// Creates the fault that a write to the file at this path failed: 133, with the path.
pub fn write_fault(alloc: Global, path: &[u8]) -> Result<PlanFault, AllocError>
    ensures { IfOk result (λ fault. fault ≡ defined.file_fault path.now) }
{
    Ok(PlanFault {
        number: 133,
        rest: Items::new(space_before(alloc, path)?),
    })
}

/// Creates the fault that the file at this path can't be read or written: 133, with the path. Returns `no_memory` if
/// memory runs out.
pub fn file_fault(alloc: Global, path: &[u8]) -> PlanFault
    ensures { (result ≡ defined.file_fault path.now) ⊎ (result ≡ defined.no_memory) }
{
    match space_before(alloc, path) {
        Ok(rest) => PlanFault {
            number: 133,
            rest: Items::new(rest),
        },
        Err(_) => no_memory(alloc),
    }
}

/// Creates the fault that no edge makes this target: 132, with the name. Returns `no_memory` if memory runs out.
pub fn unknown_target(alloc: Global, name: &[u8]) -> PlanFault
    ensures { (result ≡ defined.unknown_target name.now) ⊎ (result ≡ defined.no_memory) }
{
    match space_before(alloc, name) {
        Ok(rest) => PlanFault {
            number: 132,
            rest: Items::new(rest),
        },
        Err(_) => no_memory(alloc),
    }
}

/// Returns ` 'PATH', needed by 'OUTPUT', missing and no known rule to make it`.
fn missing_text(alloc: Global, path: &[u8], output: &[u8]) -> Result<Vec<u8>, AllocError>
    ensures { IfOk result (λ text. text.items ≡ defined.missing_text path.now output.now) }
{
    let mut text = Vec::from_slice(alloc, b" '")?;
    text.extend_from_slice(path)?;
    text.extend_from_slice(b"', needed by '")?;
    text.extend_from_slice(output)?;
    text.extend_from_slice(b"', missing and no known rule to make it")?;
    Ok(text)
}

/// Creates the fault that a file which no edge makes is missing, and that an edge with this first output needs it. The
/// number is 135 if the targets need the edge, and 136 if the manifest does. Returns `no_memory` if memory runs out.
pub fn no_source(alloc: Global, number: u8, path: &[u8], output: &[u8]) -> PlanFault
    ensures { (result ≡ defined.no_source number path.now output.now) ⊎ (result ≡ defined.no_memory) }
{
    match missing_text(alloc, path, output) {
        Ok(rest) => PlanFault {
            number,
            rest: Items::new(rest),
        },
        Err(_) => no_memory(alloc),
    }
}

/// Returns the text that is printed after the name of a manifest's fault.
fn rest_of(alloc: Global, fault: &ScopeFault) -> Result<Vec<u8>, AllocError>
    ensures { IfOk result (λ rest. rest.items ≡ defined.rest_of fault.now) }
{
    match fault {
        ScopeFault::SourceMissing(path) => place(alloc, path.as_slice(), 0),
        ScopeFault::Parse(path, fault) => match fault.offset() {
            Some(offset) => place(alloc, path.as_slice(), offset),
            None => Ok(Vec::new(alloc)),
        },
        ScopeFault::Refused(path, offset, _) => place(alloc, path.as_slice(), *offset),
        ScopeFault::LoadMemory | ScopeFault::Memory => Ok(Vec::new(alloc)),
    }
}

/// Converts a fault of a manifest into the fault that is printed. Returns `no_memory` if memory runs out.
pub fn printed_fault(alloc: Global, fault: &ScopeFault) -> PlanFault
    ensures { (result ≡ defined.printed_fault fault.now) ⊎ (result ≡ defined.no_memory) }
{
    match rest_of(alloc, fault) {
        Ok(rest) => PlanFault {
            number: fault.number(),
            rest: Items::new(rest),
        },
        Err(_) => no_memory(alloc),
    }
}
