//! The bytes of bodies and gates.
ghost use Rattle.std.specs.Prelude.{◌≡◌, ◌+◌, ◌*◌, ◌^◌, ◌<◌, ◌≤◌, ◌++◌, ℕ, List, [], length, flat_map, All};
ghost use Rattle.iq_block_store.specs.Frames.{bytes_of};
ghost use Rattle.iq_root.specs.Roots.{long_at, long_bytes, body_page, gate_page};
ghost use Rattle.iq_root.specs.Pages.{IsDone, RootFits};

use crate::Root;
use byteorder::{ByteOrder, LittleEndian};
use iq_base::Page;
use iq_outside::Block;

/// The generation that a body or a gate tells: the number in the first 8 bytes behind its header.
#[tactic(auto, unfolding(crate::specs::Roots::long_at))]
pub fn long_at(block: &Block) -> u64
    ensures { result ≡ long_at block.now 16 }
{
    LittleEndian::read_u64(block.split_at(16).1)
}

/// The payload of a gate. One of generation 0 is closed.
pub fn gate_page(generation: u64) -> Page
    ensures { result ≡ gate_page generation }
{
    let mut page = blank();
    put(&mut page, 0, &long_bytes(generation));
    page
}

/// The payload of a body.
pub fn body_page(root: &Root) -> Page
    ensures page { result ≡ body_page root.now }
    ensures fits { RootFits root.now }
{
    let tables = root.tables.as_slice();
    let mut page = blank();
    put(&mut page, 0, &long_bytes(root.generation));
    put(&mut page, 8, &bytes_of(root.format));
    put(&mut page, 12, &bytes_of(root.count));
    put(&mut page, 16, &bytes_of(tables.len() as u32));
    put_all(&mut page, tables);
    page
}

/// Writes addresses behind the first 20 bytes of a page that is written up to there.
fn put_all(page: &mut Page, tables: &[u32])
    requires { length tables.now ≤ 64 }
    ensures done { (done : List ℕ) → IsDone 20 done page.old
        → IsDone (20 + 4 * length tables.now) (done ++ flat_map bytes_of tables.now) page.new }
    ensures fits { All (λ address. address < 2 ^ 32) tables.now }
{
    for (k, address) in tables.iter().enumerate() {
        put(page, 20 + 4 * k, &bytes_of(*address));
    }
}

/// A page of zeros.
#[tactic(auto, unfolding(crate::specs::Roots::zeros))]
fn blank() -> Page
    ensures { IsDone 0 [] result }
{
    [0; 1008]
}

/// The 4 bytes of a number.
#[tactic(auto, unfolding(iq_block_store::specs::Frames::bytes_of))]
fn bytes_of(n: u32) -> [u8; 4]
    ensures bytes { result ≡ bytes_of n }
    ensures fits { n < 2 ^ 32 }
{
    let mut bytes = [0; 4];
    LittleEndian::write_u32(&mut bytes, n);
    bytes
}

/// The 8 bytes of a number.
#[tactic(auto, unfolding(crate::specs::Roots::long_bytes))]
fn long_bytes(n: u64) -> [u8; 8]
    ensures bytes { result ≡ long_bytes n }
    ensures fits { n < 2 ^ 64 }
{
    let mut bytes = [0; 8];
    LittleEndian::write_u64(&mut bytes, n);
    bytes
}

/// Writes bytes into a page that is written up to there.
fn put(page: &mut Page, at: usize, bytes: &[u8])
    requires { at + length bytes.now ≤ 1008 }
    ensures { (done : List ℕ) → IsDone at done page.old
        → IsDone (at + length bytes.now) (done ++ bytes.now) page.new }
{
    page[at..at + bytes.len()].copy_from_slice(bytes);
}
