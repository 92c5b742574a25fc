// A book of byte strings, and the equal parts of a log that are lent to them.
#![tactic(auto)]

ghost use Rattle.std.specs.Prelude.{◌≡◌, ◌*◌, ◌≤◌, ◌<◌};
ghost use Rattle.model.specs.Book.{count, good_book, part_of};
ghost use Rattle.books.specs.Lent.{Spans, Few};

use words::read;

// Where a string lies in its book.
#[derive(Clone, Copy)]
pub struct Span {
    pub start: usize,
    pub end: usize,
}

// How many strings the book says to hold.
pub fn count(book: &[u8]) -> usize
    ensures { result ≡ count book.now }
{
    read(book, 0) as usize
}

// Whether it holds from 1 to `most`, and both arrays lie in it.
pub fn good_book(most: usize, book: &[u8]) -> bool
    requires { Few most }
    ensures { result ≡ good_book most book.now }
{
    let n = count(book);
    if n < 1 {
        return false;
    }
    if most < n {
        return false;
    }
    8 * (1 + 2 * n) <= book.len()
}

// String k of a book of n; an empty one where it leaves the book. Start and length are added only where the sum lies in the book.
pub fn entry(book: &[u8], n: usize, k: usize) -> Span
    requires { (n ≡ count book.now) × Few n × (k < n) }
    ensures { Spans book.now k result }
{
    let start = read(book, 1 + k) as usize;
    let size = read(book, 1 + n + k) as usize;
    if book.len() < start {
        return Span { start: 0, end: 0 };
    }
    if book.len() - start < size {
        return Span { start: 0, end: 0 };
    }
    Span {
        start: start,
        end: start + size,
    }
}

// How many bytes each of n parts of a log of so many has: whole words.
pub fn part_of(n: usize, bytes: usize) -> usize
    requires { (1 ≤ n) × Few n }
    ensures { (result ≡ part_of n bytes) × (n * result ≤ bytes) }
{
    8 * (bytes / (8 * n))
}
