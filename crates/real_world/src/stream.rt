//! Files that scripts are read from and replies are written to.

ghost use Rattle.std.specs.Prelude.{◌≡◌};

use crate::count::Faults;
use crate::interrupts::{read, write};
use outside_api::{Failed, Sink, Source};
use std::fs::File;
use std::io;
use std::io::ErrorKind;
use std::rt::Stdout;

/// A file that is read from its front. It doesn't tell its bytes.
#[derive(Drop)]
pub struct FileSource {
    file: File,
    faults: Faults<io::Error>,
}

impl FileSource {
    /// The source of an open file, whose count of faults is 0.
    pub fn new(file: File) -> Self
        ensures { result.faults.count ≡ 0 }
    {
        FileSource {
            file,
            faults: Faults::none(),
        }
    }

    /// Why the first call failed that did.
    pub fn first_error(&self) -> Option<&io::Error> {
        self.faults.first.as_ref()
    }
}

impl Source for FileSource {
    ghost use Rattle.std.specs.Prelude.{None};

    ghost says = { record { left = λ source. None; faults = λ source. source.faults.count } };

    fn take(&mut self, buffer: &mut [u8]) -> Result<usize, Failed> {
        match read(&mut self.file, buffer) {
            Ok(count) => Ok(count),
            Err(error) => {
                self.faults.rise(error);
                Err(Failed)
            }
        }
    }
}

#[derive(Drop)]
enum Target {
    File(File),
    Output(Stdout),
}

/// A file, or standard output, that is written to its end. It doesn't tell its bytes.
#[derive(Drop)]
pub struct FileSink {
    target: Target,
    faults: Faults<io::Error>,
}

impl FileSink {
    /// The sink of an open file, whose count of faults is 0.
    pub fn new(file: File) -> Self
        ensures { result.faults.count ≡ 0 }
    {
        FileSink {
            target: Target::File(file),
            faults: Faults::none(),
        }
    }

    /// The sink of standard output, whose count of faults is 0.
    pub fn output(output: Stdout) -> Self
        ensures { result.faults.count ≡ 0 }
    {
        FileSink {
            target: Target::Output(output),
            faults: Faults::none(),
        }
    }

    /// Why the first call failed that did.
    pub fn first_error(&self) -> Option<&io::Error> {
        self.faults.first.as_ref()
    }
}

impl Sink for FileSink {
    ghost use Rattle.std.specs.Prelude.{None};

    ghost says = { record { given = λ sink. None; faults = λ sink. sink.faults.count } };

    fn give(&mut self, piece: &[u8]) -> Result<usize, Failed> {
        let written = match &mut self.target {
            Target::File(file) => write(file, piece),
            Target::Output(output) => write(output, piece),
        };
        match written {
            Ok(count) if count > 0 || piece.is_empty() => Ok(count),
            Ok(_) => {
                self.faults.rise(io::Error::from(ErrorKind::WriteZero));
                Err(Failed)
            }
            Err(error) => {
                self.faults.rise(error);
                Err(Failed)
            }
        }
    }
}
