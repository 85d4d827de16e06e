ghost use Rattle.std.specs.Prelude.{◌≡◌, [], ◌∷◌};

use super::*;

// The caller's memory once the list is gone: 9 was taken off, and 5 has its place.
fn memory_after_use() -> [u8; 4]
    ensures { result ≡ 7 ∷ 5 ∷ 3 ∷ 4 ∷ [] }
{
    let mut memory = [1, 2, 3, 4];
    let mut list = List::new(&mut memory);
    let _ = list.add(7);
    let _ = list.add(9);
    let _ = list.take_off();
    let _ = list.add(5);
    memory
}

#[test]
fn memory_of_no_places(rt: HostRuntime) {
    let mut no_places: [u8; 0] = [];
    let mut list = List::new(&mut no_places);
    assert_eq!(rt; list.add(1), Err(ListRefusal::Full));
    assert_eq!(rt; list.take_off(), None);
}

#[test]
fn a_place_is_used_again(rt: HostRuntime) {
    assert_eq!(rt; memory_after_use(), [7, 5, 3, 4]);
}
