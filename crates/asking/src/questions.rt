// Questions about any tree, asked by way of those that its view answers.
ghost use Rattle.std.specs.Prelude.{◌≡◌};
ghost use Rattle.tree.specs.Trees.{at};
ghost use Rattle.tree.specs.Questions.{is_some, dir_at, taken, has_child, climbs};

use tree::view::TreeView;
use vocab::kind::Kind;
use vocab::number::Number;

// Whether an object has the number; the root is none.
pub fn holds<V: TreeView>(view: &V, number: Number) -> bool
    ensures { result ≡ is_some (at number (V.tree view.now).objects) }
{
    number != Number::ROOT && view.object(number).is_some()
}

// Whether the number is a directory's; the root is one.
pub fn is_directory<V: TreeView>(view: &V, number: Number) -> bool
    ensures { result ≡ dir_at number (V.tree view.now).objects }
{
    view.object(number)
        .is_some_and(|status| status.kind == Kind::Directory)
}

pub fn has_name<V: TreeView>(view: &V, parent: Number, name: &[u8]) -> bool
    ensures { result ≡ taken parent name.now (V.tree view.now).objects }
{
    view.look(parent, name).is_some()
}

pub fn has_children<V: TreeView>(view: &V, number: Number) -> bool
    ensures { result ≡ has_child number (V.tree view.now).objects }
{
    view.child(number, Number::BEFORE_ALL).is_some()
}

// Whether `number` is `from` or stands above it. No way up is longer than the capacity.
pub fn encloses<V: TreeView>(view: &V, number: Number, from: Number) -> bool
    ensures { result ≡ climbs (V.tree view.now).capacity number from (V.tree view.now).objects }
{
    let mut here = from;
    for _ in 0..view.capacity() {
        if here == number {
            return true;
        }
        if here == Number::ROOT {
            return false;
        }
        let Some(status) = view.object(here) else {
            return false;
        };
        here = status.parent;
    }
    here == number
}
