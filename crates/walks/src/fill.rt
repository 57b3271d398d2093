// Lists that are written to a caller's buffer.
ghost use Rattle.std.specs.Prelude.{◌≡◌};
ghost use Rattle.walks.specs.Buffers.{filled};

// Writes the items to the start of the buffer, as far as there is room.
pub fn fill<T: Copy>(items: &[T], buffer: &mut [T])
    ensures { buffer.new ≡ filled items.now buffer.old }
{
    let count = items.len().min(buffer.len());
    buffer[0..count].copy_from_slice(&items[0..count]);
}
