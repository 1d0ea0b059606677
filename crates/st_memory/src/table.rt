// The table of pages, and the numbers of a space's pages in it.
ghost use Rattle.std.specs.Prelude.{◌≡◌, ◌≢◌, ℕ, ◌+◌, ◌-◌, ◌∷◌, [], ◌^◌, ◌<◌, ◌≤◌, ◌⊎◌, length, slice_get, slice_index, Some, None, IfOk, OnOk, OnErr, IsErr, IsSome, IsTrue};
ghost use Rattle.slab.specs.Slab.{get, with_value, ContainsKey, HasRoomFor, Updates};
ghost use Rattle.st_base.specs.Numbered.{item_at_number_or};
ghost use Rattle.st_memory.specs.declared.page.TheConstants.{PAGE_BYTES, PAGE_WORDS};
ghost use Rattle.st_memory.specs.declared.table.TheConstants.{SPACE_PAGES};
ghost use Rattle.st_memory.specs.Memory.{byte_of, bytes_after_put, bytes_after_store, zeros};
ghost use Rattle.st_memory.specs.Pages.{count_of, occurrences, words_of, AreAlone, ArePagesAdded, ArePagesReleased, AreCopies, IsFreshRow, IsChanged, IsOneShared, IsOwned, IsReplaced, IsRestAlone, IsTable, SamePages, row_of};

use crate::page::{PAGE_BYTES, PAGE_WORDS, Page};
use slab::Slab;
use st_base::Space;
use std::alloc::{AllocError, Global};

/// The pages of a space.
pub const SPACE_PAGES: usize = 16;

/// A page, and how many spaces have it.
#[derive(Debug, Drop)]
pub struct CountedPage {
    pub page: Page,
    pub count: usize,
}

// Counts one more space for a page.
fn share_page(pages: &mut Slab<CountedPage>, number: usize)
    requires there { 0 < count_of pages.old number }
    requires few { count_of pages.old number < 2 ^ 64 - 1 }
    ensures { ArePagesAdded pages.old (number ∷ []) pages.new }
{
    pages[number].count += 1;
}

/// Counts one more space for each of these pages.
pub(crate) fn share(pages: &mut Slab<CountedPage>, numbers: &[usize])
    requires there { (number : ℕ) → 0 < occurrences number numbers.now → 0 < count_of pages.old number }
    requires few { (number : ℕ) → count_of pages.old number + occurrences number numbers.now < 2 ^ 64 }
    ensures { ArePagesAdded pages.old numbers.now pages.new }
{
    for number in numbers {
        share_page(pages, *number);
    }
}

// Counts one space less for a page, and frees a page that no space has.
fn release_page(pages: &mut Slab<CountedPage>, number: usize)
    requires { 0 < count_of pages.old number }
    ensures released { ArePagesReleased pages.old (number ∷ []) pages.new }
    ensures room { (more : ℕ) → HasRoomFor pages.old more → HasRoomFor pages.new more }
{
    let counted = &mut pages[number];
    if counted.count > 1 {
        counted.count -= 1;
    } else {
        pages.remove(number);
    }
}

/// Counts one space less for each of these pages, and frees those that no space has.
pub(crate) fn release(pages: &mut Slab<CountedPage>, numbers: &[usize])
    requires { (number : ℕ) → occurrences number numbers.now ≤ count_of pages.old number }
    ensures { ArePagesReleased pages.old numbers.now pages.new }
{
    for number in numbers {
        release_page(pages, *number);
    }
}

/// The page numbers of a space that exists.
pub(crate) fn row_of(rows: &[Option<[usize; SPACE_PAGES]>], space: Space) -> &[usize; SPACE_PAGES]
    requires { IsSome (item_at_number_or None rows.now space) }
    ensures { item_at_number_or None rows.now space ≡ Some result.now }
{
    match &rows[space as usize - 1] {
        Some(row) => row,
        None => unreachable!(),
    }
}

// Adds a page that one space will have.
fn insert_page(pages: &mut Slab<CountedPage>, page: Page) -> Result<usize, AllocError>
    ensures fresh { IfOk result (λ number. count_of pages.old number ≡ 0) }
    ensures added { IfOk result (λ number. ArePagesAdded pages.old (number ∷ []) pages.new) }
    ensures words { IfOk result (λ number. words_of pages.new number ≡ page) }
    ensures err { OnErr result (SamePages pages.old pages.new) }
{
    Ok(pages.insert(CountedPage { page, count: 1 })?)
}

/// Adds 16 pages of zeros that one space will have. If memory runs out, no page is added.
pub(crate) fn insert_zeros(
    pages: &mut Slab<CountedPage>,
    alloc: Global,
) -> Result<[usize; SPACE_PAGES], AllocError>
    ensures row { IfOk result (λ row. IsFreshRow pages.old row pages.new) }
    ensures len { IfOk result (λ row. length row ≡ SPACE_PAGES) }
    ensures err { OnErr result (SamePages pages.old pages.new) }
{
    let mut row = [0; SPACE_PAGES];
    for index in 0..SPACE_PAGES {
        match insert_zero(pages, alloc) {
            Ok(number) => row[index] = number,
            Err(error) => {
                release(pages, &row[..index]);
                return Err(error);
            }
        }
    }
    Ok(row)
}

// Adds a page of zeros that one space will have.
fn insert_zero(pages: &mut Slab<CountedPage>, alloc: Global) -> Result<usize, AllocError>
    ensures fresh { IfOk result (λ number. count_of pages.old number ≡ 0) }
    ensures added { IfOk result (λ number. ArePagesAdded pages.old (number ∷ []) pages.new) }
    ensures words { IfOk result (λ number. words_of pages.new number ≡ zeros) }
    ensures err { OnErr result (SamePages pages.old pages.new) }
{
    let page = Page::zeros(alloc)?;
    insert_page(pages, page)
}

/// Whether each page of a row from index `first` up to `end` is one space's alone.
pub(crate) fn are_alone(pages: &Slab<CountedPage>, row: &[usize], first: usize, end: usize) -> bool
    requires there { (number : ℕ) → 0 < occurrences number row.now → 0 < count_of pages.now number }
    requires inside { end ≤ length row.now }
    ensures { IsTrue result → AreAlone pages.now row.now first end }
{
    for index in first..end {
        if pages[row[index]].count > 1 {
            return false;
        }
    }
    true
}

// Copies of the shared pages of a row from index `first` up to `end`, each with its index.
fn copies_of_shared(
    pages: &Slab<CountedPage>,
    alloc: Global,
    row: &[usize],
    first: usize,
    end: usize,
) -> Result<Vec<(usize, Page)>, AllocError>
    requires there { (number : ℕ) → 0 < occurrences number row.now → 0 < count_of pages.now number }
    requires inside { end ≤ length row.now }
    ensures copies { IfOk result (λ copies. AreCopies pages.now row.now first end copies.items) }
    ensures rest { IfOk result (λ copies. IsRestAlone pages.now row.now first end copies.items) }
    ensures shared { IsErr result → IsOneShared pages.now row.now first end }
{
    let mut copies = Vec::new(alloc);
    for index in first..end {
        let counted = &pages[row[index]];
        if counted.count > 1 {
            let page = counted.page.copy(alloc)?;
            copies.push((index, page))?;
        }
    }
    Ok(copies)
}

// Adds a page that one space will have, where there is room for it.
fn insert_reserved(pages: &mut Slab<CountedPage>, page: Page) -> usize
    requires { HasRoomFor pages.old 1 }
    ensures fresh { count_of pages.old result ≡ 0 }
    ensures added { ArePagesAdded pages.old (result ∷ []) pages.new }
    ensures words { words_of pages.new result ≡ page }
    ensures room { (more : ℕ) → HasRoomFor pages.old (more + 1) → HasRoomFor pages.new more }
{
    pages.insert_reserved(CountedPage { page, count: 1 })
}

// Puts the copy of a page in place of the page at an index of a row.
fn replace_page(pages: &mut Slab<CountedPage>, row: &mut [usize], index: usize, page: Page)
    requires room { HasRoomFor pages.old 1 }
    requires inside { index < length row.old }
    requires there { 0 < count_of pages.old (slice_index row.old index) }
    ensures row { (number : ℕ) × IsReplaced pages.old row.old index page number pages.new row.new }
    ensures room { (more : ℕ) → HasRoomFor pages.old (more + 1) → HasRoomFor pages.new more }
{
    let number = insert_reserved(pages, page);
    release_page(pages, row[index]);
    row[index] = number;
}

/// A row with pages of its own in place of shared pages from index `first` up to `end`. If memory runs out, no page is added.
pub(crate) fn own_row(
    pages: &mut Slab<CountedPage>,
    alloc: Global,
    row: &[usize; SPACE_PAGES],
    first: usize,
    end: usize,
) -> Result<[usize; SPACE_PAGES], AllocError>
    requires there { (number : ℕ) → occurrences number row.now ≤ count_of pages.old number }
    requires once { (number : ℕ) → occurrences number row.now ≤ 1 }
    requires inside { end ≤ SPACE_PAGES }
    ensures owned { IfOk result (λ owned. IsOwned pages.old row.now first end [] pages.new owned) }
    ensures shared { IsErr result → IsOneShared pages.old row.now first end }
    ensures err { OnErr result (SamePages pages.old pages.new) }
{
    let mut owned = *row;
    let mut copies = copies_of_shared(pages, alloc, row, first, end)?;
    if copies.is_empty() {
        return Ok(owned);
    }
    pages.reserve(copies.len())?;
    while let Some((index, page)) = copies.pop() {
        replace_page(pages, &mut owned, index, page);
    }
    Ok(owned)
}

/// Stores a word at an index of a page.
pub(crate) fn put_word_into(pages: &mut Slab<CountedPage>, number: usize, place: usize, word: u64)
    requires there { 0 < count_of pages.old number }
    requires inside { place < PAGE_WORDS }
    ensures changed { IsChanged pages.old number pages.new }
    ensures bytes { (b : ℕ) → byte_of (words_of pages.new number) b ≡ bytes_after_store (byte_of (words_of pages.old number)) place word b }
{
    let counted = &mut pages[number];
    counted.page.put_word(place, word);
}

/// Puts bytes on a page, from byte `at` of the page on.
pub(crate) fn put_bytes_into(pages: &mut Slab<CountedPage>, number: usize, at: usize, bytes: &[u8])
    requires there { 0 < count_of pages.old number }
    requires inside { at + length bytes.now ≤ PAGE_BYTES }
    ensures changed { IsChanged pages.old number pages.new }
    ensures bytes { (b : ℕ) → byte_of (words_of pages.new number) b ≡ bytes_after_put (byte_of (words_of pages.old number)) at bytes.now b }
{
    let counted = &mut pages[number];
    counted.page.put_bytes(at, bytes);
}

/// The page at an index of a space that exists.
pub(crate) fn page_of<'a>(
    rows: &[Option<[usize; SPACE_PAGES]>],
    pages: &'a Slab<CountedPage>,
    space: Space,
    index: usize,
) -> &'a CountedPage
    requires table { IsTable rows.now pages.now }
    requires live { IsSome (item_at_number_or None rows.now space) }
    requires inside { index < SPACE_PAGES }
    ensures { (number : ℕ) × (slice_get (row_of rows.now space) index ≡ Some number) × (get pages.now number ≡ Some result.now) }
{
    &pages[row_of(rows, space)[index]]
}
