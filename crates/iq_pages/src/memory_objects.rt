//! Objects of pages in memory: a short list of numbers, each with its pages.
ghost use Rattle.std.specs.Prelude.{◌≡◌, ◌<◌, [], ◌∷◌, ◌++◌, length, slice_get, slice_set, IfSome, IfNone, IfOk, OnOk, OnErr, Some, ℕ};
ghost use Rattle.iq_pages.specs.MemoryPages.{pages_in, IsPlaceOf, IsMissing, ChangesPages};

use iq_base::{NoMemory, Page};
use std::alloc::Global;

/// An object that was made: its number and its pages.
#[derive(Debug, Drop)]
pub struct Object {
    pub number: u32,
    pub pages: Vec<Page>,
}

/// How many pages an object has.
pub fn count_of(objects: &[Object], number: u32) -> usize
    ensures { result ≡ length (pages_in objects.now number) }
{
    match place_of(objects, number) {
        Some(place) => objects[place].pages.len(),
        None => 0,
    }
}

/// Copies a page of an object.
pub fn read(objects: &[Object], number: u32, n: usize, into: &mut Page)
    requires { n < length (pages_in objects.now number) }
    ensures { slice_get (pages_in objects.now number) n ≡ Some into.new }
{
    if let Some(place) = place_of(objects, number) {
        *into = objects[place].pages[n];
    }
}

/// Writes a page of an object anew.
pub fn write(objects: &mut [Object], number: u32, n: usize, from: &Page)
    requires { n < length (pages_in objects.old number) }
    ensures { ChangesPages number (slice_set (pages_in objects.old number) n from.now) objects.old objects.new }
{
    if let Some(place) = place_of(objects, number) {
        let object = &mut objects[place];
        object.pages[n] = *from;
    }
}

/// Puts a page at the end of an object. No object changes where memory is wanting.
pub fn push(
    objects: &mut Vec<Object>,
    alloc: Global,
    number: u32,
    from: &Page,
) -> Result<(), NoMemory>
    ensures ok { OnOk result (ChangesPages number (pages_in objects.old.items number ++ from.now ∷ []) objects.old.items objects.new.items) }
    ensures err { OnErr result (ChangesPages number (pages_in objects.old.items number) objects.old.items objects.new.items) }
{
    match place_of(objects, number) {
        Some(place) => {
            let object = &mut objects[place];
            object.pages.push(*from)?;
        }
        None => {
            let mut pages = Vec::new(alloc);
            pages.push(*from)?;
            objects.push(Object { number, pages })?;
        }
    }
    Ok(())
}

/// Takes all pages of an object away.
pub fn clear(objects: &mut [Object], number: u32)
    ensures { ChangesPages number [] objects.old objects.new }
{
    if let Some(place) = place_of(objects, number) {
        let object = &mut objects[place];
        object.pages.clear();
    }
}

/// The same objects once more.
pub fn copied(objects: &[Object], alloc: Global) -> Result<Vec<Object>, NoMemory>
    ensures { IfOk result (λ copy. (number : ℕ) → pages_in copy.items number ≡ pages_in objects.now number) }
{
    let mut copy = Vec::with_capacity(alloc, objects.len())?;
    for object in objects {
        copy.push(copied_object(object, alloc)?)?;
    }
    Ok(copy)
}

fn copied_object(object: &Object, alloc: Global) -> Result<Object, NoMemory>
    ensures number { IfOk result (λ copy. copy.number ≡ object.now.number) }
    ensures pages { IfOk result (λ copy. copy.pages.items ≡ object.now.pages.items) }
{
    let mut pages = Vec::new(alloc);
    pages.extend_from_slice(&object.pages)?;
    Ok(Object {
        number: object.number,
        pages,
    })
}

fn place_of(objects: &[Object], number: u32) -> Option<usize>
    ensures found { IfSome result (λ place. IsPlaceOf objects.now number place) }
    ensures missing { IfNone result (IsMissing objects.now number) }
{
    for (place, object) in objects.iter().enumerate() {
        if object.number == number {
            return Some(place);
        }
    }
    None
}
