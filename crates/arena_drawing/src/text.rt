// Shapes as SVG. A byte is a user unit wide. Heights are in `em`, of which 160 are wider than the largest chunk.
ghost use Rattle.std.specs.Prelude.{◌≡◌, ◌++◌, OnOk, IfOk};
ghost use Rattle.arena_drawing.specs.Text.{filled, em_of, shape_text, svg_text};

use crate::shapes::Shape;
use arena_chunks::Chunk;
use itoa::Buffer;
use std::alloc::{AllocError, Global};

const HEAD: &[u8] = b"<svg xmlns='http://www.w3.org/2000/svg' width='980' height='$'>
<style>text{font:3em sans-serif}rect,line{stroke:#345;stroke-width:.1em}.free{fill:#eee}.used{fill:url(#dead)}
.block rect{fill:#8bd}.block text{text-anchor:middle}.empty{stroke:#b30;stroke-width:.4em}</style>
<svg x='10' width='960' height='960' overflow='visible' viewBox='0 0 $ $' font-size='$'>
<pattern id='dead' width='1em' height='1em' patternUnits='userSpaceOnUse'><line x2='1em' y2='1em'/></pattern>
";

const CHUNK: &[u8] = b"<svg y='$em'><text y='1.5em'>chunk at $: $ bytes, $ used</text>
<rect class='free' y='6em' width='$' height='8em'/><rect class='used' x='$' y='6em' width='$' height='8em'/></svg>
";

const BLOCK: &[u8] = b"<svg y='$em'><svg class='block' x='$' y='6em' width='$' height='8em'>
<title>block $: $ bytes at $</title><rect width='100%' height='100%'/>";

const LABEL: &[u8] = b"<text x='50%' y='1.7em'>$:$</text>";

const EMPTY: &[u8] = b"<svg y='$em'><line class='empty' x1='$' x2='$' y1='5em' y2='15em'>
<title>block $: empty, at $</title></line></svg>
";

const FOOT: &[u8] = b"<svg y='$em'><text y='1.5em'>
grey: free. hatched: used by no block. blue: blocks, name:bytes. red: empty blocks
</text></svg></svg></svg>
";

/// Appends the template with a number in place of each `$`.
pub fn put(out: &mut Vec<u8>, template: &[u8], numbers: &[u128]) -> Result<(), AllocError>
    ensures { OnOk result (out.new.items ≡ out.old.items ++ filled template.now numbers.now) }
{
    let mut left = numbers;
    for byte in template {
        match left.split_first() {
            Some((n, rest)) if *byte == b'$' => {
                out.extend_from_slice(Buffer::new().format(*n).as_bytes())?;
                left = rest;
            }
            _ => out.push(*byte)?,
        }
    }
    Ok(())
}

// Appends a shape. A block that is at least 9 `em` wide is labelled with its name and its size.
fn put_shape(out: &mut Vec<u8>, em: u64, shape: &Shape) -> Result<(), AllocError>
    ensures { OnOk result (out.new.items ≡ out.old.items ++ shape_text em shape.now) }
{
    match shape {
        Shape::Chunk { row, chunk } => {
            let free = chunk.cursor.saturating_sub(chunk.base);
            let (used, free) = (chunk.size.saturating_sub(free) as u128, free as u128);
            let (y, base, size) = (*row as u128 * 18, chunk.base as u128, chunk.size as u128);
            put(out, CHUNK, &[y, base, size, used, size, free, used])
        }
        Shape::Block {
            row,
            x,
            name,
            block,
        } => {
            let (y, x, name) = (*row as u128 * 18, *x as u128, *name as u128);
            let (size, addr) = (block.size as u128, block.addr as u128);
            if block.size == 0 {
                return put(out, EMPTY, &[y, x, x, name, addr]);
            }
            put(out, BLOCK, &[y, x, size, name, size, addr])?;
            if block.size / 9 >= em {
                put(out, LABEL, &[name, size])?;
            }
            put(out, b"</svg></svg>\n", &[])
        }
    }
}

// How many bytes wide an `em` is.
fn em_of(chunks: &[Chunk]) -> u64
    ensures { result ≡ em_of chunks.now }
{
    let mut largest = 0;
    for chunk in chunks {
        largest = chunk.size.max(largest);
    }
    largest / 160 + 1
}

/// Returns the shapes as SVG, in a picture of these chunks. A row is 108 pixels high.
pub fn svg_of(alloc: Global, chunks: &[Chunk], shapes: &[Shape]) -> Result<Vec<u8>, AllocError>
    ensures { IfOk result (λ out. out.items ≡ svg_text chunks.now shapes.now) }
{
    let em = em_of(chunks);
    let (rows, width) = (chunks.len() as u128, em as u128 * 160);
    let mut out = Vec::new(alloc);
    put(
        &mut out,
        HEAD,
        &[rows * 108 + 108, width, width, em as u128],
    )?;
    for shape in shapes {
        put_shape(&mut out, em, shape)?;
    }
    put(&mut out, FOOT, &[rows * 18])?;
    Ok(out)
}
