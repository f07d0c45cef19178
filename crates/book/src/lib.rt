// The book as a type: its limits, its kinds of line, the empty book.
#![tactic(auto)]

ghost use Rattle.std.specs.Prelude.{◌≡◌, ℕ, true, false, ◌<◌, ◌≤◌, length, get_or};
ghost use Rattle.book.specs.Faults.{number};
ghost use Rattle.book.specs.Kinds.{kind, none, contents, bytes, row_once};
ghost use Rattle.book.specs.Counts.{all_counts, front_of, count_at, shape_from, sum_to, start_of, row_numbers, text_bytes, total as total_of, InLimits};
ghost use Rattle.book.specs.declared.Kind.{Kind};
ghost use Rattle.book.specs.declared.Content.TheVariants.{Edition};
ghost use Rattle.book.specs.Shapes.{limits as limits_of, empty_book};

// The number of statements and how many lines of each kind: the numbers before a number table's rows.
#[derive(Clone, Copy)]
pub struct Shape {
    pub statements: usize,
    pub plain: usize,
    pub exceptions: usize,
    pub preferences: usize,
    pub conditionals: usize,
    pub alternatives: usize,
}

// A book: its shape, and room for the rows of any book; the rows' numbers come first.
#[derive(Drop)]
pub struct Book {
    pub shape: Shape,
    pub rows: [i32; Book::ROOM],
}

// The limits of a book and what follows from them.
#[derive(Clone, Copy)]
pub struct Limits {
    pub statements: usize,
    pub plain: usize,
    pub exceptions: usize,
    pub preferences: usize,
    pub conditionals: usize,
    pub alternatives: usize,
    pub text: usize,
    pub rules: usize,
    pub rows: usize,
    pub numbers: usize,
    pub sets: usize,
}

impl Book {
    // The most statements, R lines, O lines, X lines, P lines and Q lines.
    pub const STATEMENTS: usize = 48;

    pub const PLAIN: usize = 200;

    pub const ALTERNATIVES: usize = 40;

    pub const EXCEPTIONS: usize = 16;

    pub const PREFERENCES: usize = 32;

    pub const CONDITIONALS: usize = 32;

    // The most exceptions of a book that keeps the short form of Line, which has as many fields for them.
    pub const SHORT_LINE: usize = 12;

    // The most rules: plain ones, those with alternatives, exceptions; the most lines that Z counts.
    pub const RULES: usize = Book::PLAIN + Book::ALTERNATIVES + Book::EXCEPTIONS;

    pub const ROWS: usize = Book::RULES + Book::PREFERENCES + Book::CONDITIONALS;

    // How many kinds of line there are, and their places in the order of a text: B, R, O, X, P, Q, Z.
    pub const KINDS: usize = 7;

    // Kept: places are numbers, for the definitions count them (`kind k`, `after k`, a sum over the kinds before k).
    pub const AT_FIRST: usize = 0;

    pub const AT_PLAIN: usize = 1;

    pub const AT_ALTERNATIVE: usize = 2;

    pub const AT_EXCEPTION: usize = 3;

    pub const AT_PREFERENCE: usize = 4;

    pub const AT_CONDITIONAL: usize = 5;

    pub const AT_LAST: usize = 6;

    // The columns of a field, the entries that a body needs and as many that it bars, the heads of a rule with alternatives, the fields of rules, of
    // those with alternatives, of preferences and of those under a condition, the most that a line has, the bytes of a line beside its fields.
    pub const COLUMNS: usize = 4;

    pub const ENTRIES: usize = 4;

    pub const HEADS: usize = 3;

    pub const RULE_FIELDS: usize = 1 + Book::ENTRIES + Book::ENTRIES;

    pub const ALTERNATIVE_FIELDS: usize = Book::HEADS + Book::ENTRIES + Book::ENTRIES;

    pub const PREFERENCE_FIELDS: usize = 2;

    pub const CONDITIONAL_FIELDS: usize = Book::PREFERENCE_FIELDS + Book::ENTRIES + Book::ENTRIES;

    pub const WIDEST: usize = Book::ALTERNATIVE_FIELDS;

    // How many numbers of the number table a rule, one with alternatives, a preference and one under a condition have.
    pub const RULE_NUMBERS: usize = Book::RULE_FIELDS;

    pub const ALTERNATIVE_NUMBERS: usize = Book::ALTERNATIVE_FIELDS;

    pub const PREFERENCE_NUMBERS: usize = Book::PREFERENCE_FIELDS;

    pub const CONDITIONAL_NUMBERS: usize = Book::CONDITIONAL_FIELDS;

    pub const ENDS: usize = 2;

    // The longest text: B, the plain rules, those with alternatives, the exceptions, the preferences, those under a condition, Z.
    pub const TEXT: usize = Book::ENDS
        + 2 * Book::COLUMNS
        + Book::PLAIN * (Book::ENDS + Book::RULE_FIELDS * Book::COLUMNS)
        + Book::ALTERNATIVES * (Book::ENDS + Book::ALTERNATIVE_FIELDS * Book::COLUMNS)
        + Book::EXCEPTIONS * (Book::ENDS + Book::RULE_FIELDS * Book::COLUMNS)
        + Book::PREFERENCES * (Book::ENDS + Book::PREFERENCE_FIELDS * Book::COLUMNS)
        + Book::CONDITIONALS * (Book::ENDS + Book::CONDITIONAL_FIELDS * Book::COLUMNS)
        + Book::ENDS
        + Book::COLUMNS;

    // The numbers of a table before its rows; the longest table; room for the numbers of any text as it is read.
    pub const FRONT: usize = Book::KINDS - 1;

    pub const NUMBERS: usize = Book::FRONT
        + Book::PLAIN * Book::RULE_NUMBERS
        + Book::ALTERNATIVES * Book::ALTERNATIVE_NUMBERS
        + Book::EXCEPTIONS * Book::RULE_NUMBERS
        + Book::PREFERENCES * Book::PREFERENCE_NUMBERS
        + Book::CONDITIONALS * Book::CONDITIONAL_NUMBERS;

    pub const ROOM: usize = Book::TEXT / Book::COLUMNS + Book::WIDEST;

    // The sets of exceptions.
    pub const SETS: usize = 1 << Book::EXCEPTIONS;

    // The limits, as the definitions have them.
    pub fn limits() -> Limits
        ensures { result ≡ limits_of }
    {
        Limits {
            statements: Book::STATEMENTS,
            plain: Book::PLAIN,
            exceptions: Book::EXCEPTIONS,
            preferences: Book::PREFERENCES,
            conditionals: Book::CONDITIONALS,
            alternatives: Book::ALTERNATIVES,
            text: Book::TEXT,
            rules: Book::RULES,
            rows: Book::ROWS,
            numbers: Book::NUMBERS,
            sets: Book::SETS,
        }
    }

    // The empty book: one statement, no line but B and Z.
    pub fn empty() -> Self
        ensures { result ≡ empty_book }
    {
        Self {
            shape: Shape {
                statements: 1,
                plain: 0,
                exceptions: 0,
                preferences: 0,
                conditionals: 0,
                alternatives: 0,
            },
            rows: [0i32; Book::ROOM],
        }
    }
}

// What is wrong with a text or a number table: one variant for each refusal of Read and Write.
#[derive(Clone, Copy, Debug, PartialEq, Eq)]
pub enum Fault {
    // The text is longer than any book's.
    TooLong,
    // The text is empty, or its last byte is no line feed.
    NoLineFeed,
    // A line that may not stand here, or none where one must.
    NotAllowed,
    // A line of the wrong length.
    LineLength,
    // A byte that no field has, or a minus out of its place.
    StrayByte,
    // A number outside its range.
    OutOfRange,
    // Another edition than 1.
    Edition,
    // More lines of a kind than a book may have.
    TooMany,
    // An exception with no head.
    NoHead,
    // A field names an exception that the book lacks.
    NoException,
    // Z does not count the rows.
    WrongTotal,
    // The lent buffer is shorter than the answer.
    BufferShort,
    // The number table's length differs from its counts.
    TableLength,
    // A blank field, or a space after a digit.
    Gap,
    // A leading zero, or "-0".
    WrongZero,
    // More Q lines than a book may have.
    TooManyConditionals,
    // More O lines than a book may have.
    TooManyAlternatives,
    // An O line with fewer than two heads.
    FewHeads,
}

impl Fault {
    // The number that the documents give the refusal.
    pub fn number(self) -> u32
        ensures { result ≡ number self }
    {
        match self {
            Fault::TooLong => 1,
            Fault::NoLineFeed => 2,
            Fault::NotAllowed => 3,
            Fault::LineLength => 4,
            Fault::StrayByte => 5,
            Fault::OutOfRange => 6,
            Fault::Edition => 7,
            Fault::TooMany => 8,
            Fault::NoHead => 9,
            Fault::NoException => 10,
            Fault::WrongTotal => 11,
            Fault::BufferShort => 15,
            Fault::TableLength => 16,
            Fault::Gap => 17,
            Fault::WrongZero => 18,
            Fault::TooManyConditionals => 19,
            Fault::TooManyAlternatives => 22,
            Fault::FewHeads => 23,
        }
    }
}

// What a field of a line holds.
#[derive(Clone, Copy)]
pub enum Content {
    Edition,
    Statements,
    Literal,
    Exception,
    Total,
}

// A kind of line as a row of data: its letter, how many fields it has and where their contents begin in CONTENTS, how many
// numbers of the number table it gives, how many such lines a book may have and the refusal of one over, whether it is a row
// of the table, how many of its first fields are heads, how many of these must be filled and the refusal where fewer are,
// and where its count stands in front of the table's rows.
#[derive(Clone, Copy)]
pub struct Kind {
    pub letter: u8,
    pub fields: usize,
    pub from: usize,
    pub numbers: usize,
    pub limit: usize,
    pub over: Fault,
    pub row: bool,
    pub heads: usize,
    pub filled: usize,
    pub unfilled: Fault,
    pub count: usize,
}

const CONTENTS: [Content; 24] = [
    Content::Edition,
    Content::Statements,
    Content::Literal,
    Content::Literal,
    Content::Literal,
    Content::Literal,
    Content::Literal,
    Content::Literal,
    Content::Literal,
    Content::Literal,
    Content::Literal,
    Content::Literal,
    Content::Literal,
    Content::Exception,
    Content::Exception,
    Content::Literal,
    Content::Literal,
    Content::Literal,
    Content::Literal,
    Content::Literal,
    Content::Literal,
    Content::Literal,
    Content::Literal,
    Content::Total,
];

const KINDS: [Kind; Book::KINDS] = [
    Kind {
        letter: b'B',
        fields: 2,
        from: 0,
        numbers: 0,
        limit: 1,
        over: Fault::TooMany,
        row: false,
        heads: 0,
        filled: 0,
        unfilled: Fault::NoHead,
        count: 0,
    },
    Kind {
        letter: b'R',
        fields: Book::RULE_FIELDS,
        from: 2,
        numbers: Book::RULE_NUMBERS,
        limit: Book::PLAIN,
        over: Fault::TooMany,
        row: true,
        heads: 1,
        filled: 0,
        unfilled: Fault::NoHead,
        count: 1,
    },
    Kind {
        letter: b'O',
        fields: Book::ALTERNATIVE_FIELDS,
        from: 2,
        numbers: Book::ALTERNATIVE_NUMBERS,
        limit: Book::ALTERNATIVES,
        over: Fault::TooManyAlternatives,
        row: true,
        heads: Book::HEADS,
        filled: 2,
        unfilled: Fault::FewHeads,
        count: 5,
    },
    Kind {
        letter: b'X',
        fields: Book::RULE_FIELDS,
        from: 2,
        numbers: Book::RULE_NUMBERS,
        limit: Book::EXCEPTIONS,
        over: Fault::TooMany,
        row: true,
        heads: 1,
        filled: 1,
        unfilled: Fault::NoHead,
        count: 2,
    },
    Kind {
        letter: b'P',
        fields: Book::PREFERENCE_FIELDS,
        from: 13,
        numbers: Book::PREFERENCE_NUMBERS,
        limit: Book::PREFERENCES,
        over: Fault::TooMany,
        row: true,
        heads: 0,
        filled: 0,
        unfilled: Fault::NoHead,
        count: 3,
    },
    Kind {
        letter: b'Q',
        fields: Book::CONDITIONAL_FIELDS,
        from: 13,
        numbers: Book::CONDITIONAL_NUMBERS,
        limit: Book::CONDITIONALS,
        over: Fault::TooManyConditionals,
        row: true,
        heads: 0,
        filled: 0,
        unfilled: Fault::NoHead,
        count: 4,
    },
    Kind {
        letter: b'Z',
        fields: 1,
        from: 23,
        numbers: 0,
        limit: 1,
        over: Fault::TooMany,
        row: false,
        heads: 0,
        filled: 0,
        unfilled: Fault::NoHead,
        count: 0,
    },
];

// The kind at a place of the order in which they stand in a text.
pub fn kind_at(k: usize) -> Kind
    requires { k < none }
    ensures { result ≡ kind k }
{
    KINDS[k]
}

// What a line of the kind at place k comes to: numbers of the number table; bytes, with its line feed; 1 for a row of the table, else 0.
pub fn numbers_at(k: usize) -> usize
    requires { k < none }
    ensures { result ≡ (kind k).numbers }
{
    kind_at(k).numbers
}

pub fn line_bytes(k: usize) -> usize
    requires { k < none }
    ensures { result ≡ bytes (kind k) }
{
    Book::ENDS + Book::COLUMNS * kind_at(k).fields
}

pub fn row_once(k: usize) -> usize
    requires { k < none }
    ensures { result ≡ row_once (kind k) }
{
    usize::from(kind_at(k).row)
}

// What stands at a place of the list of contents: field i of kind x stands at x.from + i.
pub fn content_at(place: usize) -> Content
    requires { place < length contents }
    ensures { result ≡ get_or contents place Edition }
{
    CONTENTS[place]
}

// ---- counts
// Kept: named functions and no From, for the same counts stand in two orders, that of a text and that of a table, and the name says which.

// How many lines of each kind a book of this shape has, in the order of a text: one B, the rows, one Z.
pub fn counts_of(s: Shape) -> [usize; Book::KINDS]
    ensures { result ≡ all_counts s }
{
    [
        1,
        s.plain,
        s.alternatives,
        s.exceptions,
        s.preferences,
        s.conditionals,
        1,
    ]
}

// The numbers before the rows of a number table: n, and the counts of the kinds of rows in their own order, that of R, X, P, Q and O.
pub fn front_of(s: Shape) -> [usize; Book::FRONT]
    ensures { result ≡ front_of s }
{
    [
        s.statements,
        s.plain,
        s.exceptions,
        s.preferences,
        s.conditionals,
        s.alternatives,
    ]
}

// The shape of n statements and so many lines of each kind.
pub fn shape_from(n: usize, counts: [usize; Book::KINDS]) -> Shape
    ensures { result ≡ shape_from n counts }
{
    Shape {
        statements: n,
        plain: counts[Book::AT_PLAIN],
        exceptions: counts[Book::AT_EXCEPTION],
        preferences: counts[Book::AT_PREFERENCE],
        conditionals: counts[Book::AT_CONDITIONAL],
        alternatives: counts[Book::AT_ALTERNATIVE],
    }
}

// How many lines of the kind at place k a book of this shape has.
pub fn count_of(s: Shape, k: usize) -> usize
    requires { k < none }
    ensures { result ≡ count_at s k }
{
    counts_of(s)[k]
}

// What the lines of the kinds before place k come to in a book of this shape, each coming to what `each` gives for the place of its kind.
pub fn sum_to<F: Fn(usize) -> usize>(s: Shape, k: usize, each: F) -> usize
    requires places { (k ≤ none) × InLimits s }
    requires callable { (i : ℕ) → i < none → F.pre each i }
    requires small { (i r : ℕ) → i < none → F.post each i r → r ≤ 100 }
    ensures { (f : Kind → ℕ) → ((i r : ℕ) → i < none → F.post each i r → r ≡ f (kind i)) → result ≡ sum_to f s k }
{
    let mut n = 0;
    for i in 0..k {
        n += count_of(s, i) * each(i);
    }
    n
}

// Where the rows of the kind at place k begin among the numbers of the rows.
pub fn start_of(s: Shape, k: usize) -> usize
    requires { (k ≤ none) × InLimits s }
    ensures { result ≡ start_of s k }
{
    sum_to(s, k, numbers_at)
}

// How many numbers the rows of a book of this shape have.
pub fn row_numbers(s: Shape) -> usize
    requires { InLimits s }
    ensures { result ≡ row_numbers s }
{
    start_of(s, Book::KINDS)
}

// How many rows a book of this shape has, and how many bytes its text has.
pub fn total(s: Shape) -> usize
    requires { InLimits s }
    ensures { result ≡ total_of s }
{
    sum_to(s, Book::KINDS, row_once)
}

pub fn text_bytes(s: Shape) -> usize
    requires { InLimits s }
    ensures { result ≡ text_bytes s }
{
    sum_to(s, Book::KINDS, line_bytes)
}
