// A list done fills the front of its room; without room nothing is written.
ghost use Rattle.std.specs.Prelude.{map, ◌≡◌, length, take};
ghost use Rattle.std.proofs.lemmas.List.Edits.{sets};
ghost use Rattle.rules.specs.Questions.{answer};
ghost use Rattle.rules.specs.Replies.{listed};
ghost use Rattle.elements.specs.Marks.{marked_numbers};
ghost use Rattle.elements.specs.Ranks.{vertex_word, VerticesAsked};

use crate::marks::Marks;
use rules::{ElementId, Refusal, Reply};
use space::rows::boundary_at;
use space::words::wide;

// The numbers of a set, rising, or 12.
pub fn list_marks(s: &Marks, list: &mut [u16]) -> Reply<usize>
    ensures { (result, list.new) ≡ listed (answer (marked_numbers s.now.words)) list.old }
{
    let n = s.size();
    if list.len() < n {
        return Err(Refusal::RoomShort);
    }
    s.list_all(list);
    Ok(n)
}

// In place of each of the first n vertex elements, the number of the vertex that it names.
fn name_vertices(elements: &[u16], list: &mut [u16], n: usize)
    requires { VerticesAsked elements.now list.old n }
    ensures { list.new ≡ sets list.old 0 (map (vertex_word elements.now) (take n list.old)) }
{
    for i in 0..n {
        list[i] = boundary_at(elements, ElementId(wide(list[i])), 0);
    }
}

// The vertices that the elements of a set name, in the elements' order, or 12.
pub fn list_vertices(elements: &[u16], s: &Marks, list: &mut [u16]) -> Reply<usize>
    requires { length elements.now ≡ 18432 }
    ensures { (result, list.new) ≡ listed (answer (map (vertex_word elements.now) (marked_numbers s.now.words))) list.old }
{
    let n = list_marks(s, list)?;
    name_vertices(elements, list, n);
    Ok(n)
}
