// Every entry point for hosts: slices as a pointer and a length, and numbers of 32 bits, so that none is cut to another on its way. C knows neither `Memory` nor `Reply`: each of the four slices is lent by itself, and a reply is one number.
#![tactic(auto)]

mod words;

ghost use Rattle.std.specs.Prelude.{◌≡◌};
ghost use Rattle.rules.specs.Limits.{desk};
ghost use Rattle.rules.specs.Held.{memory_of};
ghost use Rattle.rules.specs.Refusals.{reply_number};
ghost use Rattle.rules.specs.CutLists.{cut_list_reply};
ghost use Rattle.rules.specs.Areas.{areas_reply};
ghost use Rattle.rules.specs.Files.{save_reply, open_reply};
ghost use Rattle.rules.specs.Print.{print_reply};
ghost use Rattle.rules.specs.Replies.{is_sound_reply, cube_reply, cut_by, cut_reply, sub_elements_reply, with_rank_reply, vertex_set_reply, greatest_common_reply, edges_in_order_reply, primordial_facet_reply};
ghost use Rattle.rules.specs.Touch.{touch_reply};
ghost use Rattle.cut.specs.Lists.{cut_list_of};
ghost use Rattle.desk.specs.Words.{number_word, cut_word, cut_list_word, list_word, facet_word, touch_word, divider_with, fate_by};

use cut::answers::output_word;
use elements::{questions, touch};
use rules::{CutParams, ElementId, Hyperplane};
use space::memory::Memory;
use walk::facet;
use words::{fate, list_word, number, rank_byte, refused, touch_word, written_word};

#[unsafe(no_mangle)]
pub extern "C" fn desk_is_sound(
    counts: &[u16],
    points: &[f64],
    planes: &[f64],
    elements: &[u16],
) -> u32
    ensures { result ≡ reply_number (is_sound_reply desk (memory_of counts.now points.now planes.now elements.now)) }
{
    let memory = Memory {
        counts,
        points,
        planes,
        elements,
    };
    number(soundness::sound::is_sound(memory))
}

#[unsafe(no_mangle)]
pub extern "C" fn desk_cube(
    counts: &mut [u16],
    points: &mut [f64],
    planes: &mut [f64],
    elements: &mut [u16],
    ndim: u32,
    radius: f64,
) -> u32
    ensures { (result, memory_of counts.new points.new planes.new elements.new) ≡
        number_word (cube_reply desk ndim radius (memory_of counts.old points.old planes.old elements.old)) }
{
    let dimension = ndim as u64;
    number(cube::with_primordial_cube_radius(dimension, radius, counts, points, planes, elements))
}

#[unsafe(no_mangle)]
pub extern "C" fn desk_cut(
    counts: &mut [u16],
    points: &mut [f64],
    planes: &mut [f64],
    elements: &mut [u16],
    n0: f64,
    n1: f64,
    n2: f64,
    n3: f64,
    distance: f64,
    inside: u32,
    outside: u32,
    root: u32,
) -> u64
    ensures { (result, memory_of counts.new points.new planes.new elements.new) ≡
        cut_word (cut_reply desk (cut_by (divider_with n0 n1 n2 n3 distance) (fate_by inside) (fate_by outside)) root (memory_of counts.old points.old planes.old elements.old)) }
{
    let normal = [n0, n1, n2, n3];
    let divider = Hyperplane { normal, distance };
    let inside = fate(inside);
    let outside = fate(outside);
    let params = CutParams {
        divider,
        inside,
        outside,
    };
    let root = ElementId(root as usize);
    let reply = cut::cut(counts, points, planes, elements, params, root);
    match reply {
        Err(refusal) => refused(refusal) as u64,
        Ok(answer) => output_word(answer.output, answer.warning),
    }
}

// Bits 0 to 7 are the reply's number, bits 8 and 9 the answer, and from bit 16 on stands how many corners were tested.
#[unsafe(no_mangle)]
pub extern "C" fn desk_touch(
    counts: &[u16],
    points: &[f64],
    planes: &[f64],
    elements: &[u16],
    n0: f64,
    n1: f64,
    n2: f64,
    n3: f64,
    distance: f64,
    root: u32,
) -> u32
    ensures { result ≡ touch_word (touch_reply desk (divider_with n0 n1 n2 n3 distance) root (memory_of counts.now points.now planes.now elements.now)) }
{
    let memory = Memory {
        counts,
        points,
        planes,
        elements,
    };
    let normal = [n0, n1, n2, n3];
    let divider = Hyperplane { normal, distance };
    let root = ElementId(root as usize);
    let reply = touch::touch(memory, divider, root);
    touch_word(reply)
}

// The dividers are rows of five floats, and a byte says which sides are kept: bit 0 the inside, bit 1 the outside.
#[unsafe(no_mangle)]
pub extern "C" fn desk_cut_all(
    counts: &mut [u16],
    points: &mut [f64],
    planes: &mut [f64],
    elements: &mut [u16],
    dividers: &[f64],
    kept: &[u8],
    roots: &[u16],
    answers: &mut [u64],
) -> u32
    ensures { (result, answers.new, memory_of counts.new points.new planes.new elements.new) ≡
        cut_list_word (cut_list_reply desk (cut_list_of dividers.now kept.now roots.now) answers.old
        (memory_of counts.old points.old planes.old elements.old)) }
{
    let reply = cut::lists::cut_all(
        counts, points, planes, elements, dividers, kept, roots, answers,
    );
    written_word(reply)
}

#[unsafe(no_mangle)]
pub extern "C" fn desk_subelements_of(
    counts: &[u16],
    points: &[f64],
    planes: &[f64],
    elements: &[u16],
    root: u32,
    list: &mut [u16],
) -> u32
    ensures { (result, list.new) ≡ list_word (sub_elements_reply desk (memory_of counts.now points.now planes.now elements.now) root list.old) }
{
    let memory = Memory {
        counts,
        points,
        planes,
        elements,
    };
    let reply = questions::subelements_of(memory, ElementId(root as usize), list);
    list_word(reply)
}

#[unsafe(no_mangle)]
pub extern "C" fn desk_subelements_with_rank(
    counts: &[u16],
    points: &[f64],
    planes: &[f64],
    elements: &[u16],
    root: u32,
    rank: u32,
    list: &mut [u16],
) -> u32
    ensures { (result, list.new) ≡ list_word (with_rank_reply desk (memory_of counts.now points.now planes.now elements.now) rank root list.old) }
{
    let rank = rank_byte(rank);
    let memory = Memory {
        counts,
        points,
        planes,
        elements,
    };
    let reply = questions::subelements_with_rank(memory, ElementId(root as usize), rank, list);
    list_word(reply)
}

#[unsafe(no_mangle)]
pub extern "C" fn desk_vertex_set(
    counts: &[u16],
    points: &[f64],
    planes: &[f64],
    elements: &[u16],
    root: u32,
    list: &mut [u16],
) -> u32
    ensures { (result, list.new) ≡ list_word (vertex_set_reply desk (memory_of counts.now points.now planes.now elements.now) root list.old) }
{
    let memory = Memory {
        counts,
        points,
        planes,
        elements,
    };
    let reply = questions::vertex_set(memory, ElementId(root as usize), list);
    list_word(reply)
}

#[unsafe(no_mangle)]
pub extern "C" fn desk_greatest_common_subelements(
    counts: &[u16],
    points: &[f64],
    planes: &[f64],
    elements: &[u16],
    roots: &[u16],
    list: &mut [u16],
) -> u32
    ensures { (result, list.new) ≡ list_word (greatest_common_reply desk (memory_of counts.now points.now planes.now elements.now) roots.now list.old) }
{
    let memory = Memory {
        counts,
        points,
        planes,
        elements,
    };
    let reply = questions::greatest_common_subelements(memory, roots, list);
    list_word(reply)
}

#[unsafe(no_mangle)]
pub extern "C" fn desk_edges_in_order(
    counts: &[u16],
    points: &[f64],
    planes: &[f64],
    elements: &[u16],
    root: u32,
    list: &mut [u16],
) -> u32
    ensures { (result, list.new) ≡ list_word (edges_in_order_reply desk (memory_of counts.now points.now planes.now elements.now) root list.old) }
{
    let memory = Memory {
        counts,
        points,
        planes,
        elements,
    };
    let reply = walk::edges_in_order(memory, ElementId(root as usize), list);
    list_word(reply)
}

// The areas of some pieces, their count and the sum of their sizes (document 02, order 13).
#[unsafe(no_mangle)]
pub extern "C" fn desk_areas(
    counts: &[u16],
    points: &[f64],
    planes: &[f64],
    elements: &[u16],
    pieces: &[u16],
    areas: &mut [i64],
) -> u32
    ensures { (result, areas.new) ≡ list_word (areas_reply desk (memory_of counts.now points.now planes.now elements.now) pieces.now areas.old) }
{
    let memory = Memory {
        counts,
        points,
        planes,
        elements,
    };
    let reply = areas::areas(memory, pieces, areas);
    list_word(reply)
}

#[unsafe(no_mangle)]
pub extern "C" fn desk_has_primordial_facet(
    counts: &[u16],
    points: &[f64],
    planes: &[f64],
    elements: &[u16],
    root: u32,
) -> u32
    ensures { result ≡ facet_word (primordial_facet_reply desk (memory_of counts.now points.now planes.now elements.now) root) }
{
    let memory = Memory {
        counts,
        points,
        planes,
        elements,
    };
    let root = ElementId(root as usize);
    let reply = facet::has_primordial_facet(memory, root);
    match reply {
        Err(refusal) => refused(refusal),
        Ok(b) => { if b { 0x100 } else { 0 } }
    }
}

// Bits 0 to 7 are the reply's number, and above them stands how many bytes were written.
#[unsafe(no_mangle)]
pub extern "C" fn desk_save(
    counts: &[u16],
    points: &[f64],
    planes: &[f64],
    elements: &[u16],
    file: &mut [u8],
) -> u64
    ensures { (result, file.new) ≡ list_word (save_reply desk (memory_of counts.now points.now planes.now elements.now) file.old) }
{
    let memory = Memory {
        counts,
        points,
        planes,
        elements,
    };
    let reply = files::save::save(memory, file);
    list_word(reply) as u64
}

#[unsafe(no_mangle)]
pub extern "C" fn desk_open(
    counts: &mut [u16],
    points: &mut [f64],
    planes: &mut [f64],
    elements: &mut [u16],
    file: &[u8],
) -> u32
    ensures { (result, memory_of counts.new points.new planes.new elements.new) ≡
        number_word (open_reply desk file.now (memory_of counts.old points.old planes.old elements.old)) }
{
    number(files::open::open(counts, points, planes, elements, file))
}

// As saving replies.
#[unsafe(no_mangle)]
pub extern "C" fn desk_stl(
    counts: &[u16],
    points: &[f64],
    planes: &[f64],
    elements: &[u16],
    root: u32,
    file: &mut [u8],
) -> u64
    ensures { (result, file.new) ≡ list_word (print_reply desk (memory_of counts.now points.now planes.now elements.now) root file.old) }
{
    let memory = Memory {
        counts,
        points,
        planes,
        elements,
    };
    let reply = print::stl(memory, ElementId(root as usize), file);
    list_word(reply) as u64
}
