// Climbing from a node towards the root: whether the labels on the way fit a path. The store is what is worked on, and no part of a
// query.
ghost use Rattle.std.specs.Prelude.{◌≡◌, ℕ, true, List, if◌then◌else◌, None, nat_eq};
ghost use Rattle.std.specs.Option.{option_map};
ghost use Rattle.path.specs.CodedPaths.{code_steps};
ghost use Rattle.fitting.specs.declared.fit.Ending.{Ending};
ghost use Rattle.fitting.specs.Fitting.{Reads};
ghost use Rattle.tree.specs.Lists.{keep};
ghost use Rattle.tree.specs.Trees.{nodes, actual, bare, live};
ghost use Rattle.model.specs.Ways.{find, way};
ghost use Rattle.model.specs.Rules.{fitting};
ghost use Rattle.model.specs.Locks.{fits_way};
ghost use Rattle.walks.specs.Climbs.{fits_then};

use crate::choice::Choice;
use fitting::backward::{back, begin};
use fitting::fit::Ending;
use path::query::Query;
use tree::{ROOT, Record, Store};
use words::has;

// The record to climb from: none for the root, and none where it is not chosen.
fn rung<S: Store, C: Choice>(store: &S, choice: &C, name: u64) -> Option<Record>
    ensures { option_map bare result ≡ (if nat_eq name 0 then None else find (nodes (keep (C.Choice.chosen choice.now) (S.Store.meaning store.now).records)) name) }
{
    if name == ROOT {
        return None;
    }
    let record = store.look(name)?;
    if choice.is_chosen(&record) {
        Some(record)
    } else {
        None
    }
}

// Whether there is a way from the query's node down to `at` through nodes that are chosen, and its labels fit the path
// in front of those that `places` has read.
fn climb<S: Store, C: Choice>(store: &S, choice: &C, query: &Query, at: u64, places: u32) -> bool
    ensures { (e : Ending) (ls : List ℕ) → Reads nat_eq e (code_steps query.now.path) ls places → result ≡ fits_then (way (nodes (keep (C.Choice.chosen choice.now) (S.Store.meaning store.now).records)) query.now.top at) e query.now.path ls }
{
    let mut node = at;
    let mut left = places;
    // No index: a way to the root has no more steps than there are records.
    for _ in 0..store.count() {
        if node == query.top {
            return has(left, 0);
        }
        let Some(record) = rung(store, choice, node) else {
            return false;
        };
        left = back(&query.path.path, left, &record.label);
        if left == 0 {
            return false;
        }
        node = record.parent;
    }
    node == query.top && has(left, 0)
}

// All nodes.
#[derive(Clone, Copy)]
struct Any;

impl Choice for Any {
    ghost chosen = { λ c r. true };

    fn is_chosen(&self, _node: &Record) -> bool {
        true
    }
}

// The live nodes.
#[derive(Clone, Copy)]
struct Live;

impl Choice for Live {
    ghost chosen = { λ c r. live r };

    fn is_chosen(&self, node: &Record) -> bool {
        node.mark == 0
    }
}

// Whether the query can see a change under the node `at`, of a child with the label `last` or with any.
pub fn is_seen<S: Store>(store: &S, query: &Query, at: u64, last: Option<u16>) -> bool
    ensures answer { result ≡ fits_way (way (nodes (S.Store.meaning store.now).records) query.now.top at) last query.now.path }
{
    let path = &query.path.path;
    let places = match last {
        Some(label) => back(path, begin(path, Ending::Closed), &label),
        None => begin(path, Ending::Open),
    };
    climb(store, &Any, query, at, places)
}

// Whether the query finds the node `at`.
pub fn is_found<S: Store>(store: &S, query: &Query, at: u64) -> bool
    ensures answer { result ≡ fitting (way (actual (S.Store.meaning store.now).records) query.now.top at) query.now.path }
{
    let places = begin(&query.path.path, Ending::Closed);
    climb(store, &Live, query, at, places)
}
