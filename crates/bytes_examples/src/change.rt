ghost use Rattle.std.specs.Prelude.{◌≡◌, length, IfOk, IfSome, None};
ghost use Rattle.value_model.specs.Limits.{value_limit};
ghost use Rattle.value_bytes_spec.specs.Spelling.{CanSpell};

use anyhow::Context;
use std::alloc::Global;
use value_bytes::{Bytes, Packed, Pairs, put_patches};
use values::{Key, Op, Pair, Patch, Patches, Path, Safe, Text, TextFault, Val};

/// The path of the step `n`.
fn path_to_n(alloc: Global) -> anyhow::Result<Path>
    ensures { IfOk result (λ p. length p ≡ 1) }
{
    let name = match Text::of(alloc, "n") {
        Ok(name) => Some(name),
        Err(TextFault::TooLong) | Err(TextFault::Memory) => None,
    };
    let mut keys = Vec::new(alloc);
    keys.push(Key::Text(name.context("a short text")?))?;
    Ok(Path::from_vec(keys))
}

fn one_patch(alloc: Global, op: Op, value: Option<Val>) -> anyhow::Result<Patches>
    requires { IfSome value (λ v. value_limit v ≡ None) }
    ensures { IfOk result (λ p. CanSpell p) }
{
    let path = path_to_n(alloc)?;
    let mut list = Vec::new(alloc);
    list.push(Patch { op, path, value })?;
    Ok(Patches::from_vec(list))
}

/// The change that adds the field `n` with the value 1, there and back.
fn adds_n(alloc: Global) -> anyhow::Result<Pair>
    ensures { IfOk result (λ p. CanSpell p.forward × CanSpell p.inverse) }
{
    let one = Safe::of(1).context("one is safe")?;
    let forward = one_patch(alloc, Op::Add, Some(Val::primitive(Key::Int(one))))?;
    let inverse = one_patch(alloc, Op::Remove, None)?;
    Ok(Pair { forward, inverse })
}

fn no_change(alloc: Global) -> Pair
    ensures { CanSpell result.forward × CanSpell result.inverse }
{
    Pair {
        forward: Patches::from_vec(Vec::new(alloc)),
        inverse: Patches::from_vec(Vec::new(alloc)),
    }
}

/// Prints the bytes of the change: list by list, packed, shared, and from a list of pairs.
pub fn print(rt: &impl Print, alloc: Global) -> anyhow::Result<()> {
    let pair = adds_n(alloc)?;
    let mut out = Bytes::new(alloc);
    put_patches(alloc, &pair.forward, &mut out)?;
    println!(rt; "{}", hex::encode(alloc, out.as_slice())?)?;
    put_patches(alloc, &pair.inverse, &mut out)?;
    println!(rt; "{}", hex::encode(alloc, out.as_slice())?)?;
    let packed = Packed::of(alloc, &pair)?;
    let shared = packed.share()?;
    drop(packed);
    println!(rt; "{}", hex::encode(alloc, shared.bytes())?)?;
    let again = shared.pair(alloc)?;
    println!(rt;
        "{} forward, {} inverse",
        again.forward.as_slice().len(),
        again.inverse.as_slice().len()
    )?;
    print_list(rt, alloc, shared)
}

fn print_list(rt: &impl Print, alloc: Global, packed: Packed) -> anyhow::Result<()> {
    let mut pairs = Pairs::new(alloc);
    pairs.push(Packed::of(alloc, &no_change(alloc))?)?;
    pairs.push(packed)?;
    for i in 0..3 {
        match pairs.get(i) {
            Some(pair) => println!(rt; "{i}: {} bytes", pair.bytes().len())?,
            None => println!(rt; "{i}: none")?,
        }
    }
    if pairs.len() > 1 {
        pairs.drop_first();
    }
    let last = pairs.pop().context("one pair")?;
    println!(rt;
        "{} bytes, {} left, then {}",
        last.bytes().len(),
        pairs.len(),
        pairs.pop().is_none()
    )?;
    pairs.push(last)?;
    pairs.clear();
    println!(rt; "{} left", pairs.len())?;
    Ok(())
}
