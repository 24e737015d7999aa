// The tree of a script.
ghost use Rattle.std.specs.Prelude.{◌≡◌, ◌∷◌, ◌++◌, [], IfOk, OnOk, OnErr, bytes_eq, drop};
ghost use Rattle.eval_tree.specs.Keys.{key_of, AreBytes};
ghost use Rattle.eval_tree.specs.Methods.{method_names, most_taken, named};

use js_units::{NoMemory, Units};
use std::alloc::Global;
use std::marker::Model;

/// A script: its literals, its statements, and the names that it declares at its top.
///
/// `literals` has one entry for each string token that is no key of an object literal, in the order of
/// the text, without the directive. In the whole tree an `at` is a byte offset in the file: that of the
/// operator, of the identifier after a point, of the `[`, of the first token of a built-in call, of the `{` of an
/// object literal, or of the name that is declared or assigned; of an `Append` that of its `+=`, and
/// `name_at` that of its name.
#[derive(Drop)]
pub struct Script {
    pub literals: Vec<Units>,
    pub body: Vec<Stmt>,
    pub top: Names,
}

/// A statement.
#[cycle(statements)]
#[derive(Drop)]
pub enum Stmt {
    Block {
        inner: Block,
    },
    Let {
        at: u32,
        name: Name,
        init: Option<Expr>,
    },
    Const {
        at: u32,
        name: Name,
        init: Expr,
    },
    Assign {
        at: u32,
        name: Name,
        value: Expr,
    },
    Append {
        at: u32,
        name_at: u32,
        name: Name,
        value: Expr,
    },
    Print {
        args: Vec<Expr>,
    },
    /// The arms are tried in order; `rest` is what `else` leads to, or an empty block.
    If {
        arms: Vec<Arm>,
        rest: Block,
    },
    /// The name counts from 0 to below the bound, anew for each turn.
    For {
        name: Name,
        bound: u32,
        body: Block,
    },
}

/// A condition and what is done where it holds.
#[cycle(statements)]
#[derive(Drop)]
pub struct Arm {
    pub test: Expr,
    pub body: Block,
}

/// Statements with a scope of their own. `names` are those that a `let` or `const` directly in it
/// declares, in order.
#[cycle(statements)]
#[derive(Drop)]
pub struct Block {
    pub names: Names,
    pub body: Vec<Stmt>,
}

/// An expression. A `Literal` names its entry of the script's `literals`, and a `Unary` is a minus
/// or else a `!`.
#[cycle(tree)]
#[derive(Drop)]
pub enum Expr {
    Literal {
        number: u32,
    },
    Number {
        value: u64,
    },
    Variable {
        name: Name,
    },
    Undefined,
    Null,
    Bool {
        value: bool,
    },
    NaN,
    Infinity,
    Unary {
        at: u32,
        minus: bool,
        of: Box<Expr>,
    },
    Chain {
        first: Box<Expr>,
        rest: Vec<Link>,
    },
    Cond {
        test: Box<Expr>,
        yes: Box<Expr>,
        no: Box<Expr>,
    },
    Post {
        of: Box<Expr>,
        steps: Vec<PostStep>,
    },
    Builtin {
        at: u32,
        which: Builtin,
        args: Vec<Expr>,
    },
    /// An object literal: the units of each key and the value's expression, in source order.
    Object {
        at: u32,
        members: Vec<(Units, Expr)>,
    },
}

/// An operator of a chain with its right side. The links of one level group from the left.
#[cycle(tree)]
#[derive(Drop)]
pub struct Link {
    pub at: u32,
    pub op: Op,
    pub right: Expr,
}

/// A member, a call or an index behind an expression.
#[cycle(tree)]
#[derive(Drop)]
pub enum PostStep {
    Length,
    Description,
    Call {
        at: u32,
        method: Method,
        args: Vec<Expr>,
    },
    Index {
        at: u32,
        index: Expr,
    },
    /// A read of a property by its name, of which `key` has the units; `at` is the place of the identifier.
    Property {
        at: u32,
        key: Units,
    },
}

/// An operator of a chain.
#[derive(Clone, Copy, Debug, PartialEq, Eq)]
pub enum Op {
    Or,
    And,
    Same,
    NotSame,
    Less,
    Greater,
    LessEq,
    GreaterEq,
    Plus,
    Minus,
}

/// A method of `String.prototype`, or `join` of `Array.prototype`.
#[derive(Clone, Copy, Debug, PartialEq, Eq)]
pub enum Method {
    // places
    At,
    CharAt,
    CharCodeAt,
    CodePointAt,
    // searching
    EndsWith,
    Includes,
    IndexOf,
    LastIndexOf,
    StartsWith,
    // cutting
    Slice,
    Substr,
    Substring,
    // trimming
    Trim,
    TrimEnd,
    TrimStart,
    // building
    Concat,
    PadEnd,
    PadStart,
    Repeat,
    ToWellFormed,
    // replacing
    Replace,
    ReplaceAll,
    // splitting
    Split,
    Join,
    // testing
    IsWellFormed,
}

impl Method {
    /// The method with this name.
    pub fn of_word(letters: &[u8]) -> Option<Method>
        ensures { result ≡ named method_names letters.now }
    {
        if letters == b"at".as_slice() {
            Some(Method::At)
        } else if letters == b"charAt".as_slice() {
            Some(Method::CharAt)
        } else if letters == b"charCodeAt".as_slice() {
            Some(Method::CharCodeAt)
        } else if letters == b"codePointAt".as_slice() {
            Some(Method::CodePointAt)
        } else {
            searching_method(letters)
        }
    }

    /// How many of `count` arguments it uses at most: those that its definition names.
    pub fn most_taken(self, count: usize) -> usize
        ensures { result ≡ most_taken self count }
    {
        match self {
            Method::Concat => count,
            Method::Trim
            | Method::TrimEnd
            | Method::TrimStart
            | Method::ToWellFormed
            | Method::IsWellFormed => 0,
            Method::At
            | Method::CharAt
            | Method::CharCodeAt
            | Method::CodePointAt
            | Method::Repeat
            | Method::Join => 1,
            _ => 2,
        }
    }
}

// A method that searches, or one of a kind behind these.
fn searching_method(letters: &[u8]) -> Option<Method>
    ensures { result ≡ named (drop 4 method_names) letters.now }
{
    if letters == b"endsWith".as_slice() {
        Some(Method::EndsWith)
    } else if letters == b"includes".as_slice() {
        Some(Method::Includes)
    } else if letters == b"indexOf".as_slice() {
        Some(Method::IndexOf)
    } else if letters == b"lastIndexOf".as_slice() {
        Some(Method::LastIndexOf)
    } else if letters == b"startsWith".as_slice() {
        Some(Method::StartsWith)
    } else {
        cutting_method(letters)
    }
}

// A method that cuts a part out, or one of a kind behind these.
fn cutting_method(letters: &[u8]) -> Option<Method>
    ensures { result ≡ named (drop 9 method_names) letters.now }
{
    if letters == b"slice".as_slice() {
        Some(Method::Slice)
    } else if letters == b"substr".as_slice() {
        Some(Method::Substr)
    } else if letters == b"substring".as_slice() {
        Some(Method::Substring)
    } else {
        trimming_method(letters)
    }
}

// A method that trims white space, or one of a kind behind these.
fn trimming_method(letters: &[u8]) -> Option<Method>
    ensures { result ≡ named (drop 12 method_names) letters.now }
{
    if letters == b"trim".as_slice() {
        Some(Method::Trim)
    } else if letters == b"trimEnd".as_slice() {
        Some(Method::TrimEnd)
    } else if letters == b"trimStart".as_slice() {
        Some(Method::TrimStart)
    } else {
        building_method(letters)
    }
}

// A method that builds another string, or one of a kind behind these.
fn building_method(letters: &[u8]) -> Option<Method>
    ensures { result ≡ named (drop 15 method_names) letters.now }
{
    if letters == b"concat".as_slice() {
        Some(Method::Concat)
    } else if letters == b"padEnd".as_slice() {
        Some(Method::PadEnd)
    } else if letters == b"padStart".as_slice() {
        Some(Method::PadStart)
    } else if letters == b"repeat".as_slice() {
        Some(Method::Repeat)
    } else if letters == b"toWellFormed".as_slice() {
        Some(Method::ToWellFormed)
    } else {
        replacing_method(letters)
    }
}

// A method that replaces matches, or one of a kind behind these.
fn replacing_method(letters: &[u8]) -> Option<Method>
    ensures { result ≡ named (drop 20 method_names) letters.now }
{
    if letters == b"replace".as_slice() {
        Some(Method::Replace)
    } else if letters == b"replaceAll".as_slice() {
        Some(Method::ReplaceAll)
    } else {
        splitting_method(letters)
    }
}

// A method that splits, or joins, or one of a kind behind these.
fn splitting_method(letters: &[u8]) -> Option<Method>
    ensures { result ≡ named (drop 22 method_names) letters.now }
{
    if letters == b"split".as_slice() {
        Some(Method::Split)
    } else if letters == b"join".as_slice() {
        Some(Method::Join)
    } else {
        testing_method(letters)
    }
}

// A method that tests a string.
fn testing_method(letters: &[u8]) -> Option<Method>
    ensures { result ≡ named (drop 24 method_names) letters.now }
{
    if letters == b"isWellFormed".as_slice() {
        Some(Method::IsWellFormed)
    } else {
        None
    }
}

/// A built-in function that is called by its name: `String`, `String.fromCharCode`,
/// `String.fromCodePoint`, `Symbol.for`, `Symbol.keyFor`, `JSON.stringify` with its one argument, the
/// URI handling functions `encodeURI`, `encodeURIComponent`, `decodeURI`, `decodeURIComponent`, and
/// `Object.keys`.
#[derive(Clone, Copy, Debug, PartialEq, Eq)]
pub enum Builtin {
    String,
    FromCharCode,
    FromCodePoint,
    SymbolFor,
    KeyFor,
    Stringify,
    EncodeUri,
    EncodeUriComponent,
    DecodeUri,
    DecodeUriComponent,
    Keys,
}

/// A name. Contracts see it as the list of its bytes. Its key, a number that most names have alone,
/// distinguishes names before their bytes are compared, and a name of up to seven bytes has its key alone.
#[derive(Drop)]
pub struct Name {
    key: u64,
    bytes: Vec<u8>,
    ghost keyed: { key ≡ key_of bytes.items },
    ghost lettered: { AreBytes bytes.items },
}

// No two names of up to so many bytes have one key.
const SHORT: usize = 7;

impl Model for Name {
    ghost use Rattle.std.specs.Prelude.{List, ℕ};

    ghost Value = { List ℕ };

    ghost view = { λ n. n.bytes.items };
}

impl Name {
    /// The name with these letters.
    pub fn new(bytes: Vec<u8>) -> Name
        ensures { result ≡ bytes.items }
    {
        let key = key(&bytes);
        Name { key, bytes }
    }

    /// The letters.
    pub fn as_bytes(&self) -> &[u8]
        ensures { result.now ≡ self.now }
    {
        self.bytes.as_slice()
    }

    /// The same name once more.
    pub fn copy(&self) -> Result<Name, NoMemory>
        ensures { IfOk result (λ name. name ≡ self.now) }
    {
        let key = self.key;
        Ok(Name {
            key,
            bytes: self.bytes.clone()?,
        })
    }

    /// Whether two names are the same.
    pub fn is(&self, other: &Name) -> bool
        ensures { result ≡ bytes_eq self.now other.now }
    {
        if self.key != other.key {
            return false;
        }
        same_letters(self.bytes.as_slice(), other.bytes.as_slice())
    }

    /// The key: names that are the same have the same one.
    pub fn key(&self) -> u64
        ensures { result ≡ key_of self.now }
    {
        self.key
    }
}

// The key of these letters.
fn key(bytes: &[u8]) -> u64
    ensures { result ≡ key_of bytes.now }
{
    let mut key: u64 = 0;
    for i in (0..bytes.len()).rev() {
        key = key % 36_028_797_018_963_968 * 261 + bytes[i] as u64 + 1;
    }
    key
}

// Whether the letters of two names with one key are the same.
fn same_letters(left: &[u8], right: &[u8]) -> bool
    requires left { AreBytes left.now }
    requires right { AreBytes right.now }
    requires keys { key_of left.now ≡ key_of right.now }
    ensures { result ≡ bytes_eq left.now right.now }
{
    if left.len() <= SHORT && right.len() <= SHORT {
        return true;
    }
    left == right
}

/// Names that a script declares at its top. Contracts see them as a list of names.
#[derive(Drop)]
pub struct Names {
    items: Vec<Name>,
}

impl Model for Names {
    ghost use Rattle.std.specs.Prelude.{List, ℕ};

    ghost Value = { List (List ℕ) };

    ghost view = { λ n. n.items.items };
}

impl Names {
    /// No name. It allocates nothing.
    pub fn new(alloc: Global) -> Names
        ensures { result ≡ [] }
    {
        Names {
            items: Vec::new(alloc),
        }
    }

    /// Adds a name at the end; unchanged on refusal.
    pub fn push(&mut self, name: Name) -> Result<(), NoMemory>
        ensures added { OnOk result (self.new ≡ self.old ++ name ∷ []) }
        ensures refused { OnErr result (self.new ≡ self.old) }
    {
        self.items.push(name)?;
        Ok(())
    }

    /// The names, in order.
    pub fn as_slice(&self) -> &[Name]
        ensures { result.now ≡ self.now }
    {
        self.items.as_slice()
    }
}

impl Script {
    /// The names that the script declares at its top.
    pub fn names(&self) -> &Names
        ensures { result.now ≡ self.now.top }
    {
        &self.top
    }
}
