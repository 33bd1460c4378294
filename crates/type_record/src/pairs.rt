//! The handles of keys by a list of pairs.

ghost use Rattle.std.specs.Prelude.{◌≡◌};
ghost use Rattle.type_record.specs.Pairs.{handle_in};

use crate::naming::Handles;
use clr_base::Handle;
use sqlite_items::Items;
use type_tree::Key;

/// Pairs of a handle and the key that has it. Of two pairs of one key the first counts.
pub type HandlePairs = Items<(Handle, Key)>;

// The handle of a key.
fn handle_in_pairs(pairs: &[(Handle, Key)], key: &Key) -> Option<Handle>
    ensures { result ≡ handle_in pairs.now key.now }
{
    let pair = pairs.iter().find(|pair| pair.1 == *key)?;
    Some(pair.0)
}

impl Handles<Key> for Items<(Handle, Key)> {
    ghost use Rattle.type_record.specs.Pairs.{handle_in as of_pairs};

    ghost handle_of = { of_pairs };

    fn handle(&self, key: &Key) -> Option<Handle> {
        handle_in_pairs(self.as_slice(), key)
    }
}
