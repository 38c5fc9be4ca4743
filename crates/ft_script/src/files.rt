//! Trace files, read whole.

ghost use Rattle.std.specs.Prelude.{◌≡◌, ◌≢◌, ◌+◌, ◌≤◌, ◌<◌, length, Err, IfOk, IsOk};
ghost use Rattle.std.specs.IoError.{error_kind};
ghost use Rattle.std.specs.Io.KnownBytes.{IsAtEnd};
ghost use Rattle.ft_script.specs.Files.{ReadsWhole, TellsBytes, file_limit};
ghost use Rattle.ft_script.specs.inner.Given.{GivesTo};
ghost use Rattle.ft_script.specs.declared.files.FileFault.TheVariants.{Memory, Unreadable};
ghost use Rattle.std.specs.declared.io.ErrorKind.TheVariants.{OutOfMemory};

use std::alloc::{AllocError, Global};
use std::fs::OpenFile;
use std::io::{ErrorKind, Read};
use std::rt::Files;
use std::{fs, io};

/// The most bytes of a trace file: 1 GiB, which is 1,024 bytes for each event that may be held.
pub const FILE_LIMIT: usize = 1_073_741_824;

/// The most reads that a trace file may take, so that one without an end is given up: as many as a
/// file of the most bytes takes at 64 bytes a read.
pub const READ_LIMIT: u32 = 16_777_216;

/// How many bytes one read asks for. Pieces of this size stay in the processor's cache until they
/// are copied.
const PIECE: usize = 131_072;

/// Why a file could not be read whole.
#[derive(Clone, Copy, Debug, PartialEq, Eq)]
pub enum FileFault {
    /// Memory ran out.
    Memory,
    /// It is not there, is no file, could not be read to its end, or is past `FILE_LIMIT` or
    /// `READ_LIMIT`.
    Unreadable,
}

impl From<AllocError> for FileFault {
    ghost from_gives = { λ _ fault. fault ≡ Memory };

    fn from(_error: AllocError) -> FileFault {
        FileFault::Memory
    }
}

impl From<io::Error> for FileFault {
    ghost from_gives = { λ error fault. (error_kind error ≡ OutOfMemory → fault ≡ Memory)
        × (error_kind error ≢ OutOfMemory → fault ≡ Unreadable) };

    fn from(error: io::Error) -> FileFault {
        match error.kind() {
            ErrorKind::OutOfMemory => FileFault::Memory,
            _ => FileFault::Unreadable,
        }
    }
}

/// Files by their paths, as those of the system are. Contracts see what is told of a path.
pub trait Paths {
    ghost use Rattle.std.specs.Prelude.{List, ℕ, IfOk};
    ghost use Rattle.ft_script.specs.Files.{FileAt, TellsReader};

    /// A file that was opened.
    type Opened: Read + Drop;

    /// What is told of the file at a path.
    ghost told: { Self → List ℕ → FileAt };

    /// Opens the file at a path.
    fn open_at(&self, path: &str) -> io::Result<Self::Opened>
        ensures { IfOk result (λ file.
            TellsReader (told self.now path.now) (Self.Opened.remaining file)) };

    /// How many bytes an open file has, as far as that is known: a guess.
    fn size_of(&self, file: &Self::Opened) -> u64;
}

/// The system's files, of which nothing is told.
impl<F: Files> Paths for F {
    ghost use Rattle.ft_script.specs.Files.{FileAt};

    type Opened = F::File;

    ghost told = { λ _ _. FileAt.Untold };

    fn open_at(&self, path: &str) -> io::Result<F::File> {
        fs::open(self, path)
    }

    fn size_of(&self, file: &F::File) -> u64 {
        match file.metadata() {
            Ok(metadata) => metadata.len(),
            Err(_) => 0,
        }
    }
}

/// Reads the file at a path, whole.
pub fn read_file<P: Paths>(alloc: Global, files: &P, path: &str) -> Result<Vec<u8>, FileFault>
    ensures whole { IfOk result (λ bytes. TellsBytes (P.told files.now path.now) bytes.items) }
    ensures limit { IfOk result (λ bytes. length bytes.items ≤ file_limit) }
{
    let mut file = files.open_at(path)?;
    let size = files.size_of(&file);
    read_whole(alloc, size, &mut file)
}

/// Reads to the reader's end. Room is made first for `size` bytes, which is a guess; but a size
/// past the limit is refused before anything is read.
pub fn read_whole<R: Read>(alloc: Global, size: u64, file: &mut R) -> Result<Vec<u8>, FileFault>
    ensures whole { IfOk result (λ bytes.
        ReadsWhole (R.remaining file.old) (R.remaining file.new) bytes.items) }
    ensures past { file_limit < size → result ≡ Err Unreadable }
{
    let mut bytes = Vec::with_capacity(alloc, room_for(size)?)?;
    let mut piece = zeros(alloc, PIECE)?;
    for _ in 0..READ_LIMIT {
        if read_piece(file, piece.as_mut_slice(), &mut bytes)? == 0 {
            return Ok(bytes);
        }
    }
    Err(FileFault::Unreadable)
}

/// The room that a file of this size wants, if it is within the limit.
fn room_for(size: u64) -> Result<usize, FileFault>
    ensures room { IfOk result (λ room. room ≡ size) }
    ensures within { size ≤ file_limit → IsOk result }
    ensures past { file_limit < size → result ≡ Err Unreadable }
{
    match usize::try_from(size) {
        Ok(room) if room <= FILE_LIMIT => Ok(room),
        _ => Err(FileFault::Unreadable),
    }
}

/// That many zeros.
fn zeros(alloc: Global, count: usize) -> Result<Vec<u8>, AllocError>
    ensures { IfOk result (λ zeros. length zeros.items ≡ count) }
{
    vec![in alloc; 0; count]
}

/// Reads once, adds the bytes, and gives how many they are. 0 is the end.
fn read_piece<R: Read>(
    file: &mut R,
    piece: &mut [u8],
    bytes: &mut Vec<u8>,
) -> Result<usize, FileFault>
    requires piece { 0 < length piece.old }
    requires room { length bytes.old.items ≤ file_limit }
    ensures same_piece { length piece.new ≡ length piece.old }
    ensures gives { IfOk result (λ n. GivesTo (R.remaining file.old) (R.remaining file.new)
        bytes.old.items bytes.new.items) }
    ensures end { IfOk result (λ n. n ≡ 0 → IsAtEnd (R.remaining file.new)) }
    ensures count { IfOk result (λ n. length bytes.new.items ≡ length bytes.old.items + n) }
    ensures limit { IfOk result (λ n. length bytes.new.items ≤ file_limit) }
{
    let count = file.read(piece)?;
    if count > FILE_LIMIT - bytes.len() {
        return Err(FileFault::Unreadable);
    }
    bytes.extend_from_slice(&piece[..count])?;
    Ok(count)
}
