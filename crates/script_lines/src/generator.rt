// The generated script.
ghost use Rattle.std.specs.Prelude.{◌≡◌, ◌+◌, ◌/◌, ◌%◌, ◌^◌, ◌<◌, ◌≤◌, IfOk, IfSome};
ghost use Rattle.script_lines.specs.Generator.{next_state, bytes_of, name_of, line_by, generated};

use crate::line::Line;
use crate::lists::Bytes;
use flash_sim::NoMemory;
use setting_name::Name;
use std::alloc::{AllocError, Global};

fn next_state(s: u32) -> u32
    ensures { result ≡ next_state s }
{
    s.wrapping_mul(1_664_525).wrapping_add(1_013_904_223)
}

fn name_by(alloc: Global, s: u32) -> Result<Name, AllocError>
    ensures { IfOk result (λ name. name ≡ name_of s) }
{
    let key = (s >> 8) % 40;
    let text = format!(in alloc; "app/k{key}")?;
    match Name::read(text.as_bytes()) {
        Ok(name) => Ok(name),
        Err(_) => unreachable!(),
    }
}

fn value_by(alloc: Global, i: u32, s: u32) -> Result<Bytes, AllocError>
    ensures { IfOk result (λ value. value ≡ bytes_of i (1 + s / 2 ^ 16 % 32)) }
{
    let count = 1 + (s >> 16) % 32;
    let mut value = Vec::new(alloc);
    for j in 0..count {
        let byte = (i as u64 + j as u64) % 256;
        value.push(byte as u8)?;
    }
    Ok(Bytes::from_vec(value))
}

fn line_by(alloc: Global, i: u32, s: u32) -> Result<Line, AllocError>
    ensures { IfOk result (λ line. line ≡ line_by i s) }
{
    let name = name_by(alloc, s)?;
    match (s >> 24) % 8 {
        0 => Ok(Line::Del { name }),
        1 => Ok(Line::Get { name }),
        _ => {
            let value = value_by(alloc, i, s)?;
            Ok(Line::Set { name, value })
        }
    }
}

fn lines_by(alloc: Global, n: u32) -> Result<Vec<Line>, AllocError>
    ensures { IfOk result (λ lines. lines.items ≡ generated n) }
{
    let mut lines = Vec::new(alloc);
    let mut s = n;
    for i in 0..n {
        s = next_state(s);
        lines.push(line_by(alloc, i + 1, s)?)?;
    }
    Ok(lines)
}

/// The generated script of `n` lines. Each line sets, gets or deletes one of 40 names. The
/// generator starts at `n`.
///
/// # Errors
/// `NoMemory`.
pub fn gen_script(alloc: Global, n: u32) -> Result<Vec<Line>, NoMemory>
    ensures { IfOk result (λ lines. lines.items ≡ generated n) }
{
    Ok(lines_by(alloc, n)?)
}
