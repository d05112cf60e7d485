//! The components of a scan in the frame.

ghost use Rattle.std.specs.Prelude.{◌≡◌, ◌≤◌, length, map, nat_lt, is_some, IfSome};
ghost use Rattle.std.specs.List.{list_all};
ghost use Rattle.jls_marker.specs.ComponentIndex as component;

use arrayvec::ArrayVec;

/// The index of a component in the frame, or the number of components where it isn't in the frame.
#[tactic(auto, unfolding(crate::specs::ComponentIndex::index_of))]
fn index_of(frame_ids: &[u8], id: u8) -> usize
    ensures { result ≡ component.index_of frame_ids.now id }
{
    let mut index = 0;
    let mut rest = frame_ids;
    while let [other, more @ ..] = rest {
        if *other == id {
            return index;
        }
        index += 1;
        rest = more;
    }
    index
}

/// The indices of these components in the frame, where it has all of them.
pub(crate) fn indices_of(frame_ids: &[u8], ids: &[u8]) -> Option<ArrayVec<u8, 4>>
    requires few_in_frame { length frame_ids.now ≤ 4 }
    requires few { length ids.now ≤ 4 }
    ensures known { is_some result ≡ list_all (λ id. nat_lt (component.index_of frame_ids.now id) (length frame_ids.now)) ids.now }
    ensures indices { IfSome result (λ v. v.items ≡ map (component.index_of frame_ids.now) ids.now) }
{
    let mut indices = ArrayVec::new();
    let mut rest = ids;
    while let [id, more @ ..] = rest {
        let index = index_of(frame_ids, *id);
        if index >= frame_ids.len() {
            return None;
        }
        indices.push(index as u8);
        rest = more;
    }
    Some(indices)
}
