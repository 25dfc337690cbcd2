//! Bytes of cells that lie one behind the other.
ghost use Rattle.std.specs.Prelude.{◌≡◌, ◌<◌, ◌≤◌, ◌↔◌, ◌∷◌, ◌++◌, ◌+◌, ◌-◌, ◌*◌, length, IsTrue, IfOk, OnOk, OnErr};
ghost use Rattle.iq_base.specs.declared.sizes.TheConstants.{PAGE_BYTES};
ghost use Rattle.iq_base.specs.Cells.{width, IsOf, IsText, IsCell, cell, padded};
ghost use Rattle.iq_cells.specs.Packed.{per_page, cell_in, value_of_cell, AreCells, KeepsCells, CopiesCells};

use iq_base::{BadCell, Kind, NoMemory, Page, Value, cell_get, cell_put, width};

/// The bytes of one cell.
pub(crate) fn cell_of(kind: Kind, bytes: &[u8], i: usize) -> &[u8]
    requires { i * width kind + width kind ≤ length bytes.now }
    ensures { result.now ≡ cell_in kind bytes.now i }
{
    let width = width(kind);
    let at = i * width;
    &bytes[at..at + width]
}

/// The value of cell i of a page.
pub fn value_in_page(kind: Kind, page: &Page, i: usize) -> Result<Value, BadCell>
    requires { i < per_page kind }
    ensures ok { IfOk result (λ value. IsCell kind value (cell_in kind page.now i)) }
    ensures err { let bytes = cell_in kind page.now i in
        OnErr result (¬ (IsCell kind (value_of_cell kind bytes) bytes)) }
{
    cell_get(kind, cell_of(kind, page, i))
}

/// Whether the bytes, as many as a cell has, are the cell of a value of the kind.
pub(crate) fn is_cell(kind: Kind, bytes: &[u8]) -> bool
    requires { length bytes.now ≡ width kind }
    ensures { IsTrue result ↔ IsCell kind (value_of_cell kind bytes.now) bytes.now }
{
    match cell_get(kind, bytes) {
        Ok(_) => true,
        Err(_) => false,
    }
}

/// Whether the first `n` pieces of the bytes are cells of values of the kind.
pub(crate) fn are_cells(kind: Kind, bytes: &[u8], n: usize) -> bool
    requires { n * width kind ≤ length bytes.now }
    ensures { IsTrue result ↔ AreCells kind bytes.now n }
{
    for i in 0..n {
        if !is_cell(kind, cell_of(kind, bytes, i)) {
            return false;
        }
    }
    true
}

/// Copies `n` cells, from cell `from` on, into a page, from its cell `first` on. The cells before that one stay.
pub(crate) fn copy_cells(
    kind: Kind,
    bytes: &[u8],
    from: usize,
    n: usize,
    page: &mut Page,
    first: usize,
)
    requires there { (from + n) * width kind ≤ length bytes.now }
    requires fits { (first + n) * width kind ≤ PAGE_BYTES }
    ensures here { CopiesCells kind bytes.now from n page.new first }
    ensures before { KeepsCells kind first page.old page.new }
{
    let width = width(kind);
    let long = n * width;
    let at = from * width;
    let into = first * width;
    page[into..into + long].copy_from_slice(&bytes[at..at + long]);
}

/// Puts the cell of a value behind the bytes. They are as before where memory is wanting.
pub(crate) fn put_behind(bytes: &mut Vec<u8>, kind: Kind, value: &Value) -> Result<(), NoMemory>
    requires { IsOf kind value.now }
    ensures ok { OnOk result (bytes.new.items ≡ bytes.old.items ++ cell kind value.now) }
    ensures err { OnErr result (bytes.new.items ≡ bytes.old.items) }
    ensures utf8 { OnOk result (IsText value.now) }
{
    let at = bytes.len();
    bytes.resize(at + width(kind), 0)?;
    cell_put(kind, value, &mut bytes[at..]);
    Ok(())
}

/// Puts the cell of a text behind the bytes. They are as before where memory is wanting.
pub(crate) fn put_text_behind(bytes: &mut Vec<u8>, kind: Kind, text: &[u8]) -> Result<(), NoMemory>
    requires { IsOf kind (Value.Text text.now) }
    ensures ok { OnOk result (bytes.new.items ≡ bytes.old.items ++ cell kind (Value.Text text.now)) }
    ensures err { OnErr result (bytes.new.items ≡ bytes.old.items) }
{
    let at = bytes.len();
    bytes.resize(at + width(kind), 0)?;
    text_put(text, &mut bytes[at..]);
    Ok(())
}

// The length of a text, its bytes, and zeros to the end.
fn text_put(text: &[u8], into: &mut [u8])
    requires short { length text.now < 256 }
    requires fits { length text.now + 2 ≤ length into.old }
    ensures { into.new ≡ 1 ∷ padded (length into.old - 2) text.now }
{
    let (head, rest) = into.split_at_mut(2);
    head.copy_from_slice(&[1, text.len() as u8]);
    let (front, back) = rest.split_at_mut(text.len());
    front.copy_from_slice(text);
    back.fill(0);
}
