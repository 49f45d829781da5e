//! Windows of bytes, by their places.
ghost use Rattle.std.specs.Prelude.{◌≡◌, ◌≤◌, ◌+◌, length};
ghost use Rattle.rec_container.specs.Container.{content_of};
ghost use Rattle.rec_portable.specs.Windows.{bytes_in, IsWindowOf};

use rec_container::Container;

/// Says where a part of bytes stands that are kept elsewhere.
#[derive(Clone, Copy)]
pub(crate) struct Window {
    /// Where it begins.
    at: usize,
    len: usize,
}

impl Window {
    /// Finds the content of the entry of a name, in the bytes that were parsed.
    pub(crate) fn of_entry(entries: &Container<'_>, name: &str) -> Option<Window>
        ensures { IsWindowOf entries.now.bytes (content_of entries.now.entries name.now) result }
    {
        for i in 0..entries.len() {
            if name == entries.name(i) {
                return Some(Window {
                    at: entries.place(i),
                    len: entries.bytes(i).len(),
                });
            }
        }
        None
    }

    /// Lends this part of the bytes.
    pub(crate) fn of_bytes(self, bytes: &[u8]) -> &[u8]
        requires { self.at + self.len ≤ length bytes.now }
        ensures { result.now ≡ bytes_in bytes.now self }
    {
        &bytes[self.at..self.at + self.len]
    }
}
