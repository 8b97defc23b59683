// A manifest that was found, before it is judged.

ghost use Rattle.std.specs.Prelude.{◌≡◌, ◌≤◌, length};
ghost use Rattle.definition.specs.Path.{manifest_of};

// A manifest: its directory, and its contents.
#[derive(Clone, Copy)]
pub struct Near<'a> {
    pub dir: &'a [u8],
    pub contents: &'a [u8],
    // its path is within the limit
    pub ghost fits: { length (manifest_of dir.now) ≤ 2048 },
}

impl<'a> Near<'a> {
    pub(crate) fn of(dir: &'a [u8], contents: &'a [u8]) -> Near<'a>
        requires { length (manifest_of dir.now) ≤ 2048 }
        ensures dir { result.dir.now ≡ dir.now }
        ensures contents { result.contents.now ≡ contents.now }
    {
        Near { dir, contents }
    }
}
