// Tests of stores, of the stack and of the listing. What a store must do is tested for any store; the tests open one and pass it on.
#![tactic(auto)]

#[cfg(test)]
mod adding;
#[cfg(test)]
mod change;
#[cfg(test)]
mod dropping;
#[cfg(test)]
mod expect;
#[cfg(test)]
mod library;
#[cfg(test)]
mod listings;
#[cfg(test)]
mod moving;
#[cfg(test)]
mod numbering;
#[cfg(test)]
mod opening;
#[cfg(test)]
mod putting;
#[cfg(test)]
mod showing;
#[cfg(test)]
mod stacks;
#[cfg(test)]
mod tables;
