//! What the program's exit status says of a file whose bytes are known: over an opener that reports what it holds, and a reader that
//! reports what remains.
ghost use Rattle.std.specs.Prelude.{◌≡◌, ℕ, ◌≤◌, length, None, Some, true};
ghost use Rattle.elf_image_rules.specs.Rules.{MAX_LEN, IsFault};

use elf_image_sources::ShortReads;
use elf_image_stream::Seeking;
use elf_tool_program::{OpenFault, Opener, run};
use std::alloc::Global;
use std::io::Cursor;

/// How many bytes a read gives at most.
const PIECE: usize = 7;

/// Holds one file, under every name.
#[derive(Drop)]
pub struct KnownFile<'a> {
    bytes: &'a [u8],
}

impl<'a> Opener for KnownFile<'a> {
    type Input = ShortReads<&'a [u8]>;

    // What seeks in a file of the machine seeks here too.
    type Seek = Seeking<Cursor<&'a [u8]>>;

    ghost holds = { λ files _. Some files.bytes.now };

    ghost opens = { λ _ _. true };

    fn reader(&mut self, _name: &str) -> Result<ShortReads<&'a [u8]>, OpenFault> {
        Ok(ShortReads::new(self.bytes, PIECE))
    }

    fn source(&mut self, _name: &str) -> Result<Seeking<Cursor<&'a [u8]>>, OpenFault> {
        Ok(Seeking::new(Cursor::new(self.bytes)))
    }
}

/// The exit status of `elfmap check` on a file of these bytes: it is done only if no rule is broken,
/// and refused only if one is.
pub fn status_of_check(alloc: Global, bytes: &[u8]) -> u8
    requires { length bytes.now ≤ MAX_LEN }
    ensures done { result ≡ 0 → IsFault bytes.now None }
    ensures refused { result ≡ 1 → (fault : ℕ × ℕ) × IsFault bytes.now (Some fault) }
{
    let mut files = KnownFile { bytes };
    let mut out = Vec::new(alloc);
    let mut err = Vec::new(alloc);
    run(
        alloc,
        &["elfmap", "check", "a.o"],
        &mut files,
        &mut out,
        &mut err,
    )
}

/// The exit status of `elfmap check --seek`, of a file of any length.
pub fn status_of_check_by_seeking(alloc: Global, bytes: &[u8]) -> u8
    ensures done { result ≡ 0 → IsFault bytes.now None }
    ensures refused { result ≡ 1 → (fault : ℕ × ℕ) × IsFault bytes.now (Some fault) }
{
    let mut files = KnownFile { bytes };
    let mut out = Vec::new(alloc);
    let mut err = Vec::new(alloc);
    run(
        alloc,
        &["elfmap", "check", "--seek", "a.o"],
        &mut files,
        &mut out,
        &mut err,
    )
}
