// Finding, in one walk over all nodes.
ghost use Rattle.std.specs.Prelude.{◌≡◌};
ghost use Rattle.tree.specs.Trees.{actual};
ghost use Rattle.model.specs.Rules as rules;
ghost use Rattle.walks.specs.Hits.{hit_names};

use crate::climb::is_found;
use crate::hits::Hits;
use path::query::Query;
use tree::{Store, following};

impl Hits {
    // The names of the nodes that the query finds, rising, in place of those that were found before.
    pub fn find<S: Store>(&mut self, store: &S, query: &Query)
        ensures { hit_names self.new ≡ rules.query (actual (S.Store.meaning store.now).records) query.now.top query.now.path }
    {
        self.names.clear();
        let mut last = None;
        while let Some(name) = following(store, last) {
            if is_found(store, query, name) {
                self.names.push_reserved(name);
            }
            last = Some(name);
        }
    }
}
