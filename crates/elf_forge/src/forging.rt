//! The bytes of generated files.

ghost use Rattle.std.specs.Prelude.{◌≡◌, ◌<◌, ◌++◌, take, IfOk};
ghost use Rattle.sha2.specs.Sha256.{sha256};
ghost use Rattle.std.specs.String.{string_bytes};
ghost use Rattle.elf_forge.specs.Forge.{folder_of, forged, forged_id, six_digits, text_of_number};

use crate::digits::{FILES_LIMIT, digits_text, six_digits};
use crate::kind::{Kind, kind_of};
use sample_files::{debug_companion_of, dwarf_five_of, executable_of};
use sha2::{Digest, Sha256};
use std::alloc::{AllocError, Global};

/// The digest of two pieces as one message.
fn digest_of(first: &[u8], second: &[u8]) -> [u8; 32]
    ensures { result ≡ sha256 (first.now ++ second.now) }
{
    let mut hasher = Sha256::new();
    hasher.update(first);
    hasher.update(second);
    hasher.finalize()
}

/// The build-id of a number.
fn id_of(seed: u64, k: u64) -> [u8; 20]
    ensures { result ≡ forged_id seed k }
{
    front(&digest_of(&seed.to_le_bytes(), &k.to_le_bytes()))
}

/// The first 20 bytes of a digest.
fn front(digest: &[u8; 32]) -> [u8; 20]
    ensures { result ≡ take 20 digest.now }
{
    let mut out = [0; 20];
    out.copy_from_slice(&digest[..20]);
    out
}

/// The folder in which the unit of a number was compiled.
fn folder_of(alloc: Global, k: u64) -> Result<String, AllocError>
    ensures { IfOk result (λ text. string_bytes text ≡ folder_of k) }
{
    let digits = digits_text(alloc, k)?;
    let mut folder = String::from_str(alloc, "/t/")?;
    folder.push_str(digits.as_str())?;
    Ok(folder)
}

/// The text of a number.
fn text_of(alloc: Global, k: u64) -> Result<Vec<u8>, AllocError>
    ensures { IfOk result (λ v. v.items ≡ text_of_number k) }
{
    let mut text = Vec::from_slice(alloc, b"text ")?;
    text.extend_from_slice(&six_digits(k))?;
    text.push(b'\n')?;
    Ok(text)
}

/// The bytes of the file of a seed and a number: by the number's rest when it is divided by 4, an
/// ELF file with code and debug information, one with code, one with the debug information of the
/// number before, or a text.
pub fn forge(alloc: Global, seed: u64, k: u64) -> Result<Vec<u8>, AllocError>
    requires { k < FILES_LIMIT }
    ensures { IfOk result (λ v. v.items ≡ forged seed k) }
{
    match kind_of(k) {
        Kind::Whole => {
            let folder = folder_of(alloc, k)?;
            dwarf_five_of(alloc, &id_of(seed, k), folder.as_str())
        }
        Kind::Executable => executable_of(alloc, &id_of(seed, k)),
        Kind::Companion => debug_companion_of(alloc, &id_of(seed, k - 1)),
        Kind::Text => text_of(alloc, k),
    }
}
