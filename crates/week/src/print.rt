// What is printed: the answer of a step, and an object of a tree.
use std::fmt;
use std::iter::successors;
use tree::view::TreeView;
use vocab::limits::LONGEST_CONTENTS;
use vocab::number::Number;
use vocab::refusal::Refusal;
use vocab::status::Status;

#[derive(Clone, Copy)]
pub struct Answer(pub Result<Number, Refusal>);

impl fmt::Display for Answer {
    fn fmt<W: fmt::Write>(&self, f: &mut fmt::Formatter<W>) -> fmt::Result {
        match self.0 {
            Ok(number) => write!(f, "ok {number}"),
            Err(refusal) => write!(f, "no {refusal}"),
        }
    }
}

// Number, parent, kind, name, stamp, and length; indented by the directories around it.
#[derive(Drop)]
pub struct Shown<'a, V> {
    pub view: &'a V,
    pub number: Number,
}

impl<V: TreeView> fmt::Display for Shown<'_, V> {
    fn fmt<W: fmt::Write>(&self, f: &mut fmt::Formatter<W>) -> fmt::Result {
        let Some(status) = self.view.object(self.number) else {
            return Ok(());
        };
        for _ in 0..depth(self.view, status.parent) {
            f.write_str("  ")?;
        }
        let Status {
            number,
            kind,
            parent,
            name,
            stamp,
        } = status;
        let len = length(self.view, number);
        write!(f, "{number} {parent} {kind} {name} {stamp} {len}")
    }
}

// How many directories stand from this one up to the root, which is not counted.
fn depth<V: TreeView>(view: &V, directory: Number) -> usize {
    let most = view.count();
    successors(Some(directory), |&number| {
        view.object(number).map(|status| status.parent)
    })
    .take(most)
    .position(|number| number == Number::ROOT)
    .unwrap_or(most)
}

fn length<V: TreeView>(view: &V, number: Number) -> usize {
    let mut buffer = [0; LONGEST_CONTENTS];
    view.contents(number, &mut buffer).unwrap_or(0)
}
