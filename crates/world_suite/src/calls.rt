// Calls drawn at random, which any world answers.
ghost use Rattle.std.specs.Prelude.{◌≡◌, false, IsTrue, IfOk};
ghost use Rattle.world_api.specs.Calls.{IsFileAt};
ghost use Rattle.dvc_base.specs.Path.{under};
ghost use Rattle.world_api.specs.Writes.{lane_path};

use crate::asked::{has_room, is_file, is_lane, may_begin, may_publish, settle};
use crate::folders::{list, make};
use crate::jobs;
use crate::told::Told;
use dvc_base::Rel;
use std::test::Fail;
use world_api::World;

const MUCH: u64 = 1_200_000;

// Sizes at which a write or a read may be cut.
const SIZES: &[usize] = &[
    0, 1, 2, 1_024, 1_025, 4_095, 4_096, 4_097, 65_535, 65_536, 65_537,
];

/// Makes so many calls, and at the end looks at each path.
pub(crate) fn perform<W: World>(
    paths: &[Rel],
    told: &mut Told,
    world: &mut W,
    calls: u32,
) -> Result<(), Fail> {
    for _ in 0..calls {
        call(paths, told, world)?;
    }
    for at in paths {
        look(at, told, world)?;
        list(at, told, world)?;
        read(at, told, world, 0, 65_536)?;
    }
    Ok(())
}

fn call<W: World>(paths: &[Rel], told: &mut Told, world: &mut W) -> Result<(), Fail> {
    let Some(at) = told.pick(paths) else {
        return Ok(());
    };
    match told.below(15) {
        0 => look(at, told, world),
        1 | 2 => read_somewhere(at, told, world),
        3 => clear(at, told, world),
        4 | 5 => begin_drawn(told, world),
        6 => append_pieces(told, world),
        7 => append_size(told, world),
        8 => write_much(at, told, world),
        9 | 10 => publish_drawn(at, told, world),
        11 | 12 => make(at, told, world),
        13 => list(at, told, world),
        _ => jobs::run(told, world),
    }
}

fn look<W: World>(at: &Rel, told: &mut Told, world: &mut W) -> Result<(), Fail> {
    let kind = world.kind(at)?;
    let text = at.text();
    told.note(format_args!("kind {text:?}: {kind:?}"))
}

// Near the front, at places that differ in their upper bits alone, and where no file reaches.
fn read_somewhere<W: World>(at: &Rel, told: &mut Told, world: &mut W) -> Result<(), Fail> {
    let near = told.below(5_000);
    let from = match told.below(8) {
        0 => 0,
        1 => near % 8,
        2 => near * 1_000,
        3 => (1 << 32) + near % 8,
        4 => (1 << 63) - 1 - near % 8,
        5 => u64::MAX - near % 8,
        _ => near,
    };
    let size = told.pick(SIZES).copied().unwrap_or(0);
    read(at, told, world, from, size)
}

// Reads a piece, the piece behind it, and the first piece again.
fn read<W: World>(
    at: &Rel,
    told: &mut Told,
    world: &mut W,
    from: u64,
    size: usize,
) -> Result<(), Fail> {
    let text = at.text();
    if !is_file(world, at)? {
        return told.note(format_args!("read {text:?}: no file"));
    }
    let mut into = Vec::from_elem(told.alloc, 255, size)?;
    read_pieces(at, told, world, from, &mut into)
}

fn read_pieces<W: World>(
    at: &Rel,
    told: &mut Told,
    world: &mut W,
    from: u64,
    into: &mut [u8],
) -> Result<(), Fail>
    requires { IsTrue W.tells → IsFileAt (W.history world.old).present.tree at.now }
{
    let first = read_piece(at, world, from, into)?;
    let front = sum_of(into);
    let second = read_piece(at, world, from.saturating_add(first as u64), into)?;
    let behind = sum_of(into);
    let again = read_piece(at, world, from, into)?;
    let (text, size, same) = (at.text(), into.len(), sum_of(into));
    told.note(format_args!(
        "read {text:?} {from} {size}: {first} {front}, {second} {behind}, {again} {same}"
    ))
}

fn read_piece<W: World>(at: &Rel, world: &mut W, from: u64, into: &mut [u8]) -> Result<usize, Fail>
    requires { IsTrue W.tells → IsFileAt (W.history world.old).present.tree at.now }
    ensures stays { IfOk result (λ _. IsTrue W.tells → IsFileAt (W.history world.new).present.tree at.now) }
{
    let count = world.read_at(at, from, into)?;
    Ok(count)
}

// Two texts of bytes mostly have two sums.
fn sum_of(bytes: &[u8]) -> u64 {
    let mut sum: u64 = 0;
    for byte in bytes {
        sum = sum
            .wrapping_mul(1_099_511_628_211)
            .wrapping_add(u64::from(*byte) + 1);
    }
    sum
}

fn clear<W: World>(at: &Rel, told: &mut Told, world: &mut W) -> Result<(), Fail> {
    if at.parts().is_empty() {
        return Ok(());
    }
    world.clear(at)?;
    let text = at.text();
    told.note(format_args!("clear {text:?}"))
}

fn drawn_lane(told: &mut Told) -> u32 {
    told.below(3) as u32
}

fn begin_drawn<W: World>(told: &mut Told, world: &mut W) -> Result<(), Fail> {
    let lane = drawn_lane(told);
    begin(told, world, lane)
}

fn begin<W: World>(told: &mut Told, world: &mut W, lane: u32) -> Result<(), Fail> {
    if !may_begin(told.alloc, world)? {
        return told.note("begin: no room");
    }
    world.begin(lane)?;
    told.note(format_args!("begin {lane}"))
}

fn append_pieces<W: World>(told: &mut Told, world: &mut W) -> Result<(), Fail> {
    for _ in 0..told.below(20) {
        let lane = drawn_lane(told);
        let size = told.below(20) as usize;
        append(told, world, lane, size)?;
    }
    Ok(())
}

fn append_size<W: World>(told: &mut Told, world: &mut W) -> Result<(), Fail> {
    let lane = drawn_lane(told);
    let size = told.pick(SIZES).copied().unwrap_or(0);
    append(told, world, lane, size)
}

// Seldom, and what was written is cleared at once, since the world in memory makes many copies of it.
fn write_much<W: World>(at: &Rel, told: &mut Told, world: &mut W) -> Result<(), Fail> {
    if told.below(6) > 0 {
        return append_size(told, world);
    }
    let lane = drawn_lane(told);
    let size = told.below(MUCH) as usize;
    begin(told, world, lane)?;
    append(told, world, lane, size)?;
    append(told, world, lane, MUCH as usize - size)?;
    publish(at, told, world, lane)?;
    read(at, told, world, 0, MUCH as usize)?;
    clear(at, told, world)
}

fn append<W: World>(told: &mut Told, world: &mut W, lane: u32, size: usize) -> Result<(), Fail> {
    let bytes = drawn_bytes(told, size)?;
    append_bytes(told, world, lane, &bytes)
}

fn append_bytes<W: World>(
    told: &mut Told,
    world: &mut W,
    lane: u32,
    bytes: &[u8],
) -> Result<(), Fail> {
    if !is_lane(told.alloc, world, lane)? {
        return told.note(format_args!("append {lane}: no lane"));
    }
    world.append(lane, bytes)?;
    let size = bytes.len();
    told.note(format_args!("append {lane} {size}"))
}

fn drawn_bytes(told: &mut Told, size: usize) -> Result<Vec<u8>, Fail> {
    let mut bytes = Vec::from_elem(told.alloc, 0, size)?;
    let mut byte = told.below(251) as u8;
    for place in bytes.as_mut_slice() {
        *place = byte;
        byte = if byte < 250 { byte + 1 } else { 0 };
    }
    Ok(bytes)
}

fn publish_drawn<W: World>(at: &Rel, told: &mut Told, world: &mut W) -> Result<(), Fail> {
    let lane = drawn_lane(told);
    publish(at, told, world, lane)
}

fn publish<W: World>(at: &Rel, told: &mut Told, world: &mut W, lane: u32) -> Result<(), Fail> {
    if !may_publish(told.alloc, at, lane)? {
        return told.note("publish: no path for it");
    }
    let answer = publish_lane(at, told, world, lane)?;
    let text = at.text();
    told.note(format_args!("publish {lane} {text:?}: {answer}"))
}

fn publish_lane<W: World>(
    at: &Rel,
    told: &mut Told,
    world: &mut W,
    lane: u32,
) -> Result<&'static str, Fail>
    requires { under (lane_path lane) at.now ≡ false }
{
    if !settle(told.alloc, world, lane)? {
        return Ok("no lane");
    }
    if !has_room(told.alloc, world, at)? {
        return Ok("no room");
    }
    world.publish(lane, at)?;
    Ok("done")
}
