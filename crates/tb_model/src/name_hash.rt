//! The number by which a table looks a name up.

ghost use Rattle.std.specs.Prelude.{◌≡◌, ◌≤◌, ◌++◌, length, take, drop};
ghost use Rattle.tb_model.specs.NameHash.{digest, digest_of, mixed};

use crate::block::BLOCK;
use crate::numbers::Numbers;
use crate::parts::Parts;

// How many ordinals of a deep name are mixed: those nearest to the task, and those nearest to the
// root.
const NEAR: usize = 16;

const FAR: usize = 8;

/// A number made of the name's depth and ordinals.
pub(crate) fn digest(numbers: &Numbers) -> u32
    ensures { result ≡ digest numbers.now }
{
    if let Some(few) = numbers.few() {
        return of_bytes(few.as_bytes());
    }
    match numbers.short() {
        Some(short) => mixed(short.len() as u32, short),
        None => of_parts(&numbers.parts()),
    }
}

/// The digest of a name of any length. It costs no more for a deep name than for one of 24
/// ordinals: names that differ in the middle alone have one digest.
fn of_parts(numbers: &Parts<'_>) -> u32
    ensures { result ≡ digest numbers.now }
{
    let near = numbers.near.as_slice();
    let length = near.len() as u128 + numbers.far.len() as u128 * 128;
    let depth = (length % 4_294_967_296) as u32;
    match numbers.far {
        [] => of_numbers(depth, near),
        [root, ..] => {
            let last = &numbers.far[numbers.far.len() - 1];
            of_blocks(depth, near, last.as_slice(), root.as_slice())
        }
    }
}

fn of_numbers(depth: u32, numbers: &[u32]) -> u32
    ensures { result ≡ digest_of depth numbers.now }
{
    if numbers.len() <= NEAR + FAR {
        return mixed(depth, numbers);
    }
    let digest = mixed(depth, &numbers[..NEAR]);
    mixed(digest, &numbers[numbers.len() - FAR..])
}

/// The digest of a deep name, of which these are the ordinals nearest to the task, those after
/// them, and those at the root.
fn of_blocks(depth: u32, near: &[u32], next: &[u32], root: &[u32]) -> u32
    requires { (length next.now ≡ 128) × (length root.now ≡ 128) }
    ensures { result ≡ mixed (mixed depth (take 16 (near.now ++ next.now))) (drop 120 root.now) }
{
    let digest = nearest(depth, near, next);
    mixed(digest, &root[BLOCK - FAR..])
}

fn nearest(depth: u32, near: &[u32], next: &[u32]) -> u32
    requires { length next.now ≡ 128 }
    ensures { result ≡ mixed depth (take 16 (near.now ++ next.now)) }
{
    if NEAR <= near.len() {
        return mixed(depth, &near[..NEAR]);
    }
    mixed(mixed(depth, near), &next[..NEAR - near.len()])
}

fn mixed(digest: u32, numbers: &[u32]) -> u32
    ensures { result ≡ mixed digest numbers.now }
{
    match numbers {
        [] => digest,
        [number, others @ ..] => {
            let next = digest.wrapping_mul(2_654_435_769).wrapping_add(*number);
            mixed(next, others)
        }
    }
}

/// The digest of a name whose ordinals take a byte each.
fn of_bytes(numbers: &[u8]) -> u32
    requires { length numbers.now ≤ 24 }
    ensures { result ≡ digest numbers.now }
{
    mixed_bytes(numbers.len() as u32, numbers)
}

fn mixed_bytes(digest: u32, numbers: &[u8]) -> u32
    ensures { result ≡ mixed digest numbers.now }
{
    match numbers {
        [] => digest,
        [number, others @ ..] => {
            let next = digest
                .wrapping_mul(2_654_435_769)
                .wrapping_add(u32::from(*number));
            mixed_bytes(next, others)
        }
    }
}
