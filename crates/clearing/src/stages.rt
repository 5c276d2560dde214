// The five stages in turn, each over the whole text.
ghost use Rattle.reader.specs.Faults.{Meets};
ghost use Rattle.grammar.specs.Views.{tree as whole};
ghost use Rattle.numbers.specs.Literals.{literal_reading};
ghost use Rattle.unfold.specs.Views.{nodes as meant, Gives};
ghost use Rattle.clearing.specs.Stages.{tree_of, nodes_of, nodes_in};

use grammar::programs::parse;
use grammar::tree::Tree;
use names::check_names;
use numbers::kind::NumberKind;
use reader::fault::Error;
use reader::reader::read;
use sharing::check_sharing;
use std::alloc::Global;
use unfold::nodes::Nodes;
use unfold::unfolding::unfold;

// Stages 1 and 2: the tree of a text.
fn read_tree(heap: Global, text: &[u8]) -> Result<Tree, Error>
    ensures { Gives (whole text.now) result (tree_of text.now) }
{
    let tokens = read(heap, text)?;
    parse(heap, tokens.as_slice())
}

// Stages 3, 4 and 5: the unfolded text of a tree.
fn check_tree<K: NumberKind>(
    heap: Global,
    kind: &K,
    text: &[u8],
    tree: &Tree,
) -> Result<Nodes, Error>
    ensures { Gives (meant text.now) result (nodes_of (literal_reading K.NumberKind.meaning) (whole text.now tree.now)) }
{
    check_names(heap, kind, text, tree)?;
    let all = unfold(heap, kind, text, tree)?;
    check_sharing(heap, text, &all)?;
    Ok(all)
}

// All five: the unfolded text, or the first refusal.
pub fn cleared_nodes<K: NumberKind>(heap: Global, kind: &K, text: &[u8]) -> Result<Nodes, Error>
    ensures { Gives (meant text.now) result (nodes_in (literal_reading K.NumberKind.meaning) text.now) }
{
    let tree = read_tree(heap, text)?;
    check_tree(heap, kind, text, &tree)
}
