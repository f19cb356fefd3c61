//! What a line of a file of cases asks.

use crate::fault::CaseFault;

/// A disk of a case.
#[derive(Clone, Copy, PartialEq, Eq)]
pub enum DiskName {
    /// The depot's journal.
    Journal,
    /// The depot's archive.
    Archive,
    /// The journal of the node.
    NodeJournal,
    /// The archive of the node.
    NodeArchive,
}

/// What the gate of a run waits for.
#[derive(Clone, Copy)]
pub enum GateForm {
    /// It holds the first of its commands until the second was answered.
    Turn,
    /// It holds each of its commands until the other has come.
    Meet,
}

/// The gate that the next run is to have.
#[derive(Clone, Copy)]
pub struct GatePlan {
    /// What it waits for.
    pub form: GateForm,
    /// A party, and the number of a command of it.
    pub one: (u32, u32),
    /// Another.
    pub other: (u32, u32),
    /// How many looks it waits at most.
    pub turns: u64,
}

/// An object of the outside of a run.
#[derive(Clone, Copy, PartialEq, Eq)]
pub enum Outside<'a> {
    /// A disk.
    Disk(DiskName),
    /// The doors.
    Doors,
    /// What the server writes to.
    Out,
    /// The source of the script of this name.
    Source(&'a str),
    /// The sink of the party of this name.
    Sink(&'a str),
}

/// Calls of an object that fail: those of the numbers from the first to the last, counted from 1 in a run.
#[derive(Clone, Copy)]
pub struct Failure<'a> {
    pub object: Outside<'a>,
    pub first: u64,
    pub last: u64,
}

/// Which calls fail in the runs of a trial.
#[derive(Clone, Copy)]
pub enum Extent {
    /// One call.
    One,
    /// A call and all behind it.
    On,
}

/// How many calls fail where a call and all behind it are to. No run of a case makes as many.
const ALL: u64 = 300;

impl<'a> Failure<'a> {
    /// The call of a number, or that call and all behind it.
    pub fn new(object: Outside<'a>, first: u64, extent: Extent) -> Self {
        let last = match extent {
            Extent::One => first,
            Extent::On => first.saturating_add(ALL),
        };
        Failure {
            object,
            first,
            last,
        }
    }
}

/// Runs in which one call of an object after another fails.
#[derive(Clone, Copy)]
pub struct Every<'a> {
    /// All words of the line behind the first.
    pub line: &'a str,
    pub extent: Extent,
    pub object: Outside<'a>,
    /// The words of each run.
    pub words: &'a str,
}

/// What a line of a file of cases asks.
#[derive(Clone, Copy)]
pub enum Step<'a> {
    /// Nothing.
    Skip,
    /// Begin the case of this name.
    Case(&'a str),
    /// Let the door of this name bring these bytes.
    Script {
        name: &'a str,
        bytes: &'a [u8],
    },
    /// Put these bytes so many times behind the script of the door of this name.
    More {
        name: &'a str,
        count: u64,
        bytes: &'a [u8],
    },
    /// Let a file of a disk be these bytes.
    File {
        disk: DiskName,
        file: u32,
        bytes: &'a [u8],
    },
    /// Give the next run this gate.
    Gate(GatePlan),
    /// Let calls of an object fail in the next run.
    Fail(Failure<'a>),
    /// Run the server with these words, between which spaces stand.
    Run(&'a str),
    /// Keep the rows that a run with these words leaves of the disks as they are.
    Kept(&'a str),
    /// Tell what runs with these words leave in which one call of an object after another fails.
    Every(Every<'a>),
    /// Tell what a stop leaves at every moment of a run with these words.
    Stops(&'a str),
    /// Tell what a stop leaves of the node behind each run with these words in which one call of a disk after another
    /// fails.
    NodeStops {
        /// All words of the line behind the first.
        line: &'a str,
        disk: DiskName,
        words: &'a str,
    },
    /// Show the bytes of a file.
    Show {
        line: &'a str,
        disk: DiskName,
        file: u32,
    },
    /// Change a byte of a file.
    Damage {
        disk: DiskName,
        file: u32,
        place: u64,
        byte: u8,
    },
    /// Cut a file to a length.
    Cut {
        disk: DiskName,
        file: u32,
        length: u64,
    },
}

/// The disk that a word names.
fn disk_named(word: &str) -> Option<DiskName> {
    match word {
        "journal" => Some(DiskName::Journal),
        "archive" => Some(DiskName::Archive),
        "node.journal" => Some(DiskName::NodeJournal),
        "node.archive" => Some(DiskName::NodeArchive),
        _ => None,
    }
}

/// The words of a text that are still to be read. What one of them isn't is noted, and another is given in its place.
#[derive(Clone, Copy)]
pub struct Words<'a> {
    left: Option<&'a str>,
    fault: Option<CaseFault>,
}

impl<'a> Words<'a> {
    /// The words between the spaces of a text.
    pub fn new(text: &'a str) -> Self {
        Words {
            left: Some(text),
            fault: None,
        }
    }

    /// Notes a fault, unless there was one before.
    fn note(&mut self, fault: CaseFault) {
        if self.fault.is_none() {
            self.fault = Some(fault);
        }
    }

    /// What was found, or else another, and a fault.
    fn found<T: Copy>(&mut self, found: Option<T>, other: T, fault: CaseFault) -> T {
        match found {
            Some(found) => found,
            None => {
                self.note(fault);
                other
            }
        }
    }

    /// The next word.
    pub fn word(&mut self) -> &'a str {
        let left = self.left;
        let left = self.found(left, "", CaseFault::BadWords);
        match left.split_once(' ') {
            Some((word, left)) => {
                self.left = Some(left);
                word
            }
            None => {
                self.left = None;
                left
            }
        }
    }

    /// The next word as a number.
    pub fn number(&mut self) -> u64 {
        let number = self.word().parse().ok();
        self.found(number, 0, CaseFault::BadNumber)
    }

    /// The disk that the next word names.
    pub fn disk(&mut self) -> DiskName {
        let disk = disk_named(self.word());
        self.found(disk, DiskName::Journal, CaseFault::UnknownDisk)
    }

    /// The object that the next words name.
    fn outside(&mut self) -> Outside<'a> {
        let word = self.word();
        if let Some(disk) = disk_named(word) {
            return Outside::Disk(disk);
        }
        match word {
            "doors" => Outside::Doors,
            "out" => Outside::Out,
            "source" => Outside::Source(self.word()),
            "sink" => Outside::Sink(self.word()),
            _ => {
                self.note(CaseFault::UnknownObject);
                Outside::Doors
            }
        }
    }

    /// Which calls fail by the next word.
    fn extent(&mut self) -> Extent {
        match self.word() {
            "one" => Extent::One,
            "on" => Extent::On,
            _ => {
                self.note(CaseFault::UnknownExtent);
                Extent::One
            }
        }
    }

    /// All that is left, between which spaces stand.
    fn rest(&mut self) -> &'a str {
        self.left.take().unwrap_or("")
    }

    /// The next word as a number below `2 ^ 32`.
    pub fn short_number(&mut self) -> u32 {
        let number = u32::try_from(self.number()).ok();
        self.found(number, 0, CaseFault::BadNumber)
    }

    /// The next two words as a party and the number of a command of it.
    fn command(&mut self) -> (u32, u32) {
        (self.short_number(), self.short_number())
    }

    /// What the gate waits for that the next word names.
    fn gate_form(&mut self) -> GateForm {
        match self.word() {
            "turn" => GateForm::Turn,
            "meet" => GateForm::Meet,
            _ => {
                self.note(CaseFault::UnknownGate);
                GateForm::Turn
            }
        }
    }

    /// The next word as a byte.
    fn byte(&mut self) -> u8 {
        let byte = u8::try_from(self.number()).ok();
        self.found(byte, 0, CaseFault::BadNumber)
    }

    /// What the words ask, where they have no fault and none is left.
    pub fn end<T: Copy>(self, asked: T) -> Result<T, CaseFault> {
        match self.fault {
            Some(fault) => Err(fault),
            None if self.left.is_some() => Err(CaseFault::BadWords),
            None => Ok(asked),
        }
    }
}

/// The gate of the next run.
pub fn gate<'a>(text: &'a str) -> Result<Step<'a>, CaseFault> {
    let mut words = Words::new(text);
    let form = words.gate_form();
    let one = words.command();
    let other = words.command();
    let turns = words.number();
    words.end(Step::Gate(GatePlan {
        form,
        one,
        other,
        turns,
    }))
}

/// The bytes of a file.
pub fn show<'a>(line: &'a str) -> Result<Step<'a>, CaseFault> {
    let mut words = Words::new(line);
    let disk = words.disk();
    let file = words.short_number();
    words.end(Step::Show { line, disk, file })
}

/// The change of a byte.
pub fn damage<'a>(text: &'a str) -> Result<Step<'a>, CaseFault> {
    let mut words = Words::new(text);
    let disk = words.disk();
    let file = words.short_number();
    let place = words.number();
    let byte = words.byte();
    words.end(Step::Damage {
        disk,
        file,
        place,
        byte,
    })
}

/// The cut of a file.
pub fn cut<'a>(text: &'a str) -> Result<Step<'a>, CaseFault> {
    let mut words = Words::new(text);
    let disk = words.disk();
    let file = words.short_number();
    let length = words.number();
    words.end(Step::Cut { disk, file, length })
}

/// The calls that fail in the next run.
pub fn fail<'a>(text: &'a str) -> Result<Step<'a>, CaseFault> {
    let mut words = Words::new(text);
    let object = words.outside();
    let extent = words.extent();
    let first = words.number();
    words.end(Step::Fail(Failure::new(object, first, extent)))
}

/// What stops leave: at each moment of a run, or, where the first word names a disk, behind runs in which one call of
/// it after another fails.
pub fn stops<'a>(line: &'a str) -> Step<'a> {
    let mut words = Words::new(line);
    match disk_named(words.word()) {
        Some(disk) => Step::NodeStops {
            line,
            disk,
            words: words.rest(),
        },
        None => Step::Stops(line),
    }
}

/// The trial of failing calls.
pub fn every_call<'a>(line: &'a str) -> Result<Step<'a>, CaseFault> {
    let mut words = Words::new(line);
    let extent = words.extent();
    let object = words.outside();
    let words_of_runs = words.rest();
    words.end(Step::Every(Every {
        line,
        extent,
        object,
        words: words_of_runs,
    }))
}
