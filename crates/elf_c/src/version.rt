//! The version of the library.
ghost use Rattle.std.specs.Prelude.{◌≡◌};
ghost use Rattle.elf_c.specs.Version.{VERSION as version};

/// `ELFMAP_VERSION`: the file `VERSION` has MAJOR.MINOR.PATCH, and this is 1,000,000 MAJOR + 1,000 MINOR + PATCH.
pub const VERSION: u64 = 1_000;

/// The version of the library that is linked.
#[unsafe(no_mangle)]
pub extern "C" fn elfmap_version() -> u64
    ensures { result ≡ version }
{
    VERSION
}
