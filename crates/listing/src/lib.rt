// The listing of any tree that is shown, by a walk that holds the directories still to be finished.
#![tactic(auto)]

ghost use Rattle.std.specs.Prelude.{◌≡◌, ◌<◌, ◌≤◌, [], length, IfOk, MatchResult};
ghost use Rattle.std.specs.Iterator.{item_count};
ghost use Rattle.vocab.specs.declared.refusal.Refusal.TheVariants.{ListShort};
ghost use Rattle.listing.specs.Listings.{listing, ListsEachOnce};
ghost use Rattle.listing.specs.Walks.{place, entered, Sound, walk, left_of, Step};

use asking::questions::is_directory;
use stack::Stack;
use std::marker::Model;
use tree::view::TreeView;
use vocab::number::Number;
use vocab::refusal::Refusal;

#[derive(Drop)]
pub struct Listing<'v, 'r, V: TreeView> {
    view: &'v V,
    // The directories entered and not yet finished; the root takes no place.
    path: Stack<'r, Number>,
    // The number last given among the objects of the innermost.
    after: Number,
}

impl<'v, 'r, V: TreeView> Model for Listing<'v, 'r, V> {
    ghost use Rattle.listing.specs.Walks.{Walk, walk, Sound};

    ghost Value = { Walk V };

    ghost use Rattle.listing.specs.Meaning.{place_of};

    ghost view = { λ w. walk w.view.now (place_of w) };

    ghost invariant = { λ w. Sound (V.tree w.view.now) (place_of w) };
}

impl<'v, 'r, V: TreeView> Listing<'v, 'r, V> {
    // At the start of the listing; what the list held goes.
    pub fn new(view: &'v V, list: &'r mut [Number]) -> Result<Listing<'v, 'r, V>, Refusal>
        ensures answer { MatchResult result
            (λ w. (length (V.tree view.now).objects ≤ length list.old) × (w ≡ walk view.now (place (length list.old) [] 0)))
            (λ e. (length list.old < length (V.tree view.now).objects) × (e ≡ ListShort)) }
        ensures begins { IfOk result (λ w. Sound (V.tree view.now) w.place × (left_of V.tree w ≡ listing (V.tree view.now))) }
    {
        if list.len() < view.count() {
            return Err(Refusal::ListShort);
        }
        Ok(Listing {
            view,
            path: Stack::new(list),
            after: Number::BEFORE_ALL,
        })
    }
}

impl<'v, 'r, V: TreeView> Iterator for Listing<'v, 'r, V> {
    type Item = Number;

    ghost next_gives = { Step V.tree };

    ghost remaining = { item_count (left_of V.tree) };

    fn next(&mut self) -> Option<Number> {
        loop {
            let directory = self.path.top().unwrap_or(Number::ROOT);
            if let Some(number) = self.view.child(directory, self.after) {
                self.after = enter(self.view, &mut self.path, number);
                return Some(number);
            }
            let finished = self.path.pop()?;
            self.after = finished;
        }
    }
}

// The number behind which the walk goes on. A directory that has no place on the stack is passed by, as a file is;
// from a sound place there always is one.
fn enter<V: TreeView>(view: &V, path: &mut Stack<'_, Number>, number: Number) -> Number
    ensures { place path.new.places path.new.held result
        ≡ entered (V.tree view.now).objects number (place path.old.places path.old.held number) }
{
    if is_directory(view, number) && path.push(number).is_ok() {
        Number::BEFORE_ALL
    } else {
        number
    }
}

// Every object stands in the listing once, and nothing else does.
pub fn lists_once()
    ensures { ListsEachOnce }
{}
