// The nodes of a YAML text, and why a text has none.
ghost use Rattle.std.specs.Prelude.{◌≡◌, IfOk};

use crate::{NoMemory, Plain, Plural, Text};
use std::alloc::Global;

/// Why a text is none of the YAML profile, with the line on which that shows.
#[derive(Clone, Copy, Debug, PartialEq, Eq)]
pub enum YamlFault {
    /// No rule reads the text.
    Syntax { line: u32 },
    /// A mapping has a key twice.
    Duplicate { line: u32 },
    /// More than 64 collections stand in one another.
    TooDeep { line: u32 },
    /// A number is wider than 128 bits.
    TooWide { line: u32 },
    /// Memory ran out.
    NoMemory,
}

impl YamlFault {
    ghost use Rattle.dvc_base.specs.FaultParts.{line_of, word_of};

    /// The line on which it shows; 0 for want of memory.
    pub fn line(&self) -> u32
        ensures exact { result ≡ line_of self.now }
    {
        match *self {
            YamlFault::Syntax { line }
            | YamlFault::Duplicate { line }
            | YamlFault::TooDeep { line }
            | YamlFault::TooWide { line } => line,
            YamlFault::NoMemory => 0,
        }
    }

    /// What is wrong, in a word or two.
    pub fn word(&self) -> &str
        ensures exact { result.now ≡ word_of self.now }
    {
        match self {
            YamlFault::Syntax { .. } => "syntax",
            YamlFault::Duplicate { .. } => "duplicate key",
            YamlFault::TooDeep { .. } => "too deep",
            YamlFault::TooWide { .. } => "number too wide",
            YamlFault::NoMemory => "out of memory",
        }
    }
}

impl From<NoMemory> for YamlFault {
    ghost use Rattle.dvc_base.specs.declared.node.YamlFault.TheVariants.{NoMemory as Memory};

    ghost from_gives = { λ _ fault. fault ≡ Memory };

    fn from(_: NoMemory) -> YamlFault {
        YamlFault::NoMemory
    }
}

/// A node of a YAML text. A number keeps its text as it was written.
#[cycle(node)]
#[derive(Drop)]
pub enum Node {
    Null,
    Bool(bool),
    /// A whole number of at most 128 bits.
    Whole { value: i128, text: Text },
    /// A number with a point or an exponent.
    Decimal { text: Text },
    Text(Text),
    Items(Nodes),
    /// The pairs of a mapping in their order, with distinct keys.
    Pairs(PairList),
}

/// A key of a mapping and its value.
#[cycle(node)]
#[derive(Drop)]
pub struct Pair {
    pub key: Text,
    pub value: Node,
}

/// A list of nodes.
pub type Nodes = Plural<Node>;

/// A list of pairs.
pub type PairList = Plural<Pair>;

#[cycle(copy_node)]
fn copy_node(alloc: Global, node: &Node) -> Result<Node, NoMemory>
    ensures same { IfOk result (λ copy. copy ≡ node.now) }
{
    Ok(match node {
        Node::Null => Node::Null,
        Node::Bool(bit) => Node::Bool(*bit),
        Node::Whole { value, text } => Node::Whole {
            value: *value,
            text: text.copy(alloc)?,
        },
        Node::Decimal { text } => Node::Decimal {
            text: text.copy(alloc)?,
        },
        Node::Text(text) => Node::Text(text.copy(alloc)?),
        Node::Items(items) => Node::Items(copy_items(alloc, items.as_slice())?),
        Node::Pairs(pairs) => Node::Pairs(copy_pairs(alloc, pairs.as_slice())?),
    })
}

#[cycle(copy_node)]
fn copy_items(alloc: Global, items: &[Node]) -> Result<Nodes, NoMemory>
    ensures same { IfOk result (λ copy. copy ≡ items.now) }
{
    let mut copies = Nodes::new(alloc);
    for item in items {
        copies.push(copy_node(alloc, item)?)?;
    }
    Ok(copies)
}

#[cycle(copy_node)]
fn copy_pairs(alloc: Global, pairs: &[Pair]) -> Result<PairList, NoMemory>
    ensures same { IfOk result (λ copy. copy ≡ pairs.now) }
{
    let mut copies = PairList::new(alloc);
    for pair in pairs {
        copies.push(copy_pair(alloc, pair)?)?;
    }
    Ok(copies)
}

#[cycle(copy_node)]
fn copy_pair(alloc: Global, pair: &Pair) -> Result<Pair, NoMemory>
    ensures same { IfOk result (λ copy. copy ≡ pair.now) }
{
    Ok(Pair {
        key: pair.key.copy(alloc)?,
        value: copy_node(alloc, &pair.value)?,
    })
}

impl Plain for Node {
    fn copy(&self, alloc: Global) -> Result<Node, NoMemory> {
        copy_node(alloc, self)
    }
}

impl Plain for Pair {
    fn copy(&self, alloc: Global) -> Result<Pair, NoMemory> {
        copy_pair(alloc, self)
    }
}
