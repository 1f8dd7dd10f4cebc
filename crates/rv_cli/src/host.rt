//! The files of the disk and the standard streams of the process.

use rv_board::run_virt;
use rv_guests::{GuestInput, GuestOutput, Guests};
use rv_image::Image;
use rv_machine::{End, GuestOut, Io, RunFault, WatchFault, Watched, Watcher, run_io, run_watched};
use rv_memory::Paged;
use rv_system::{FILE_LIMIT, Purpose, ReadFault, System, painted, read_sized, read_whole};
use std::alloc::{AllocError, Global};
use std::env::{self, Env, FillError, VarError};
use std::fs::{File, metadata, read_dir};
use std::io::{self, ErrorKind, IsTerminal, Read, Stderr, Write};
use std::os::unix::fs::PermissionsExt;

/// The system itself.
#[derive(Clone, Copy)]
pub struct Host<'a> {
    pub rt: &'a HostRuntime,
}

/// Standard error or a file, for lines that are written while a guest runs.
#[derive(Drop)]
pub enum HostLines {
    Errors(Stderr),
    /// Standard error with colours.
    Colours(Global, Stderr),
    File(File),
}

impl Write for HostLines {
    fn write(&mut self, bytes: &[u8]) -> io::Result<usize> {
        match self {
            HostLines::Errors(errors) => errors.write(bytes),
            HostLines::Colours(alloc, errors) => {
                errors.write_all(painted(*alloc, bytes)?.as_slice())?;
                Ok(bytes.len())
            }
            HostLines::File(file) => file.write(bytes),
        }
    }

    fn flush(&mut self) -> io::Result<()> {
        Ok(())
    }
}

impl System for Host<'_> {
    type Lines = HostLines;

    fn alloc(&self) -> Global {
        self.rt.alloc()
    }

    fn file(&mut self, name: &str) -> Result<Vec<u8>, ReadFault> {
        let Ok(mut file) = File::open(self.rt, name) else {
            return Err(ReadFault::Failed);
        };
        let size = size_of(&file);
        read_sized(self.rt.alloc(), &mut file, size, FILE_LIMIT)
    }

    fn input(&mut self, limit: usize) -> Result<Vec<u8>, ReadFault> {
        read_whole(self.rt.alloc(), &mut self.rt.stdin(), limit)
    }

    fn next_input(&mut self, piece: &mut [u8]) -> io::Result<usize> {
        self.rt.stdin().read(piece)
    }

    fn folder(&mut self, name: &str) -> Result<Option<Vec<String>>, ReadFault> {
        match metadata(self.rt, name) {
            Ok(about) if about.is_dir() => Ok(Some(names_in(self.rt, name)?)),
            _ => Ok(None),
        }
    }

    fn write(&mut self, name: &str, purpose: Purpose, bytes: &[u8]) -> io::Result<()> {
        let mut file = File::create(self.rt, name)?;
        file.write_all(bytes)?;
        if purpose == Purpose::ToRun {
            // where the system lets us not, the file is written all the same
            let _ = let_run(&file);
        }
        Ok(())
    }

    fn variable(&self, name: &str) -> Result<Option<String>, AllocError> {
        match env::var(self.rt, name) {
            Ok(text) if text.is_empty() => Ok(None),
            Ok(text) => Ok(Some(text)),
            Err(VarError::NotPresent) => Ok(None),
            // what is no text is no number either
            Err(VarError::NotUnicode) => Ok(Some("\u{FFFD}".to_string(self.rt.alloc())?)),
            Err(VarError::OutOfMemory) => Err(AllocError),
        }
    }

    fn directory(&self) -> Result<String, ReadFault> {
        match env::current_dir(self.rt) {
            Ok(path) => Ok(path.into_string()),
            Err(error) => Err(unread(error.kind())),
        }
    }

    fn shows_colours(&self) -> bool {
        self.rt.stdout().is_terminal() && wants_colours(self.rt)
    }

    fn errors_go_to_terminal(&self) -> bool {
        self.rt.stderr().is_terminal()
    }

    fn print(&mut self, bytes: &[u8]) -> io::Result<()> {
        self.rt.stdout().write_all(bytes)
    }

    fn lines(&mut self, name: Option<&str>) -> io::Result<HostLines> {
        match name {
            Some(name) => Ok(HostLines::File(File::create(self.rt, name)?)),
            None => Ok(errors_of(self.rt)),
        }
    }

    fn show(&mut self, text: &str) {
        let _ = eprint!(self.rt; "{text}");
    }

    fn tell(&mut self, line: &str) {
        let _ = eprintln!(self.rt; "rv: {line}");
    }
}

impl Guests for Host<'_> {
    fn run(&mut self, image: Image, input: GuestInput, limit: u64) -> Result<End, RunFault> {
        let alloc = self.rt.alloc();
        let mut output = Io::new(self.rt.stdout());
        match input {
            GuestInput::Standard => {
                let mut input = Io::new(self.rt.stdin());
                run_io(alloc, image, &mut input, &mut output, limit)
            }
            GuestInput::Empty => {
                let mut input = Io::new(io::empty());
                run_io(alloc, image, &mut input, &mut output, limit)
            }
        }
    }

    fn run_on_board(
        &mut self,
        image: Image,
        input: GuestInput,
        limit: u64,
    ) -> Result<End, RunFault> {
        let alloc = self.rt.alloc();
        let mut output = Io::new(self.rt.stdout());
        match input {
            GuestInput::Standard => {
                let mut input = Io::new(self.rt.stdin());
                run_virt(alloc, image, &mut input, &mut output, limit)
            }
            GuestInput::Empty => {
                let mut input = Io::new(io::empty());
                run_virt(alloc, image, &mut input, &mut output, limit)
            }
        }
    }

    fn watch<T: Watcher<Paged>>(
        &mut self,
        machine: &mut Watched<Paged>,
        input: GuestInput,
        output: GuestOutput,
        watcher: &mut T,
        limit: u64,
    ) -> Result<End, WatchFault> {
        match output {
            GuestOutput::Standard => {
                let mut output = Io::new(self.rt.stdout());
                watch_over(self.rt, machine, input, &mut output, watcher, limit)
            }
            GuestOutput::Errors => {
                let mut output = Io::new(self.rt.stderr());
                watch_over(self.rt, machine, input, &mut output, watcher, limit)
            }
        }
    }
}

/// Runs a machine that writes to a stream, and has a watcher look at each step.
fn watch_over<W: GuestOut, T: Watcher<Paged>>(
    rt: &HostRuntime,
    machine: &mut Watched<Paged>,
    input: GuestInput,
    output: &mut W,
    watcher: &mut T,
    limit: u64,
) -> Result<End, WatchFault> {
    match input {
        GuestInput::Standard => {
            let mut input = Io::new(rt.stdin());
            run_watched(machine, &mut input, output, watcher, limit)
        }
        GuestInput::Empty => {
            let mut input = Io::new(io::empty());
            run_watched(machine, &mut input, output, watcher, limit)
        }
    }
}

/// The names in a folder.
fn names_in(rt: &HostRuntime, folder: &str) -> Result<Vec<String>, ReadFault> {
    let entries = match read_dir(rt, folder) {
        Ok(entries) => entries,
        Err(error) => return Err(unread(error.kind())),
    };
    let mut names = Vec::new(rt.alloc());
    for entry in entries {
        match entry {
            Ok(entry) => names.push(String::from_str(rt.alloc(), entry.file_name())?)?,
            Err(error) => return Err(unread(error.kind())),
        }
    }
    Ok(names)
}

/// The size that the system has for a file; 0 where it has none, as of a pipe.
fn size_of(file: &File) -> usize {
    match file.metadata() {
        Ok(about) => usize::try_from(about.len()).unwrap_or(0),
        Err(_) => 0,
    }
}

/// Why a folder is not read, or not known.
fn unread(kind: ErrorKind) -> ReadFault {
    match kind {
        ErrorKind::OutOfMemory => ReadFault::Memory,
        _ => ReadFault::Failed,
    }
}

/// Standard error, with colours where it is a terminal.
fn errors_of(rt: &HostRuntime) -> HostLines {
    if rt.stderr().is_terminal() && wants_colours(rt) {
        HostLines::Colours(rt.alloc(), rt.stderr())
    } else {
        HostLines::Errors(rt.stderr())
    }
}

/// Whether the environment's `NO_COLOR` is empty or not there.
fn wants_colours(rt: &HostRuntime) -> bool {
    match rt.var("NO_COLOR", &mut [0u8; 1]) {
        Ok(length) => length == 0,
        Err(FillError::TooLong) => false,
        Err(FillError::NotPresent) => true,
    }
}

/// Lets everyone run a file who may read it; what is no file of the disk stays as it is.
fn let_run(file: &File) -> io::Result<()> {
    let about = file.metadata()?;
    if !about.is_file() {
        return Ok(());
    }
    let mut permissions = about.permissions();
    let mode = permissions.mode();
    permissions.set_mode(mode | (mode & 0o444) >> 2);
    file.set_permissions(permissions)
}
