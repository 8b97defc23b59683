// A manifest without fault, and the texts of its members.

ghost use Rattle.std.specs.Prelude.{◌≡◌, ◌≤◌, Some, length, drop};
ghost use Rattle.std.proofs.Props.{props};
ghost use Rattle.definition.specs.Path.{manifest_of};
ghost use Rattle.definition.specs.Manifest.{if_text, field};
ghost use Rattle.definition.specs.JsonAt.{get_at};
ghost use Rattle.json_text.specs.Texts.{told};
ghost use Rattle.directory.specs.Roots.{json_of, root_in, text_in, told_in};

use package_json::TextAt;

// A manifest without fault: its directory, its contents, and where its root value begins in them.
#[derive(Clone, Copy)]
pub struct Package<'a> {
    pub dir: &'a [u8],
    pub manifest: &'a [u8],
    pub root: usize,
    // its path is within the limit
    pub ghost fits: { length (manifest_of dir.now) ≤ 2048 },
    // its root value begins at the root
    pub ghost rooted: { root_in manifest.now ≡ Some (drop root manifest.now) } by { Prim.hlevel props },
}

// The text of a member of the value that begins at a place of a manifest, where it is a string. It is decoded into work only where it has an escape.
pub fn text_field(m: &[u8], root: usize, name: &[u8], work: &mut [u8]) -> Option<TextAt>
    ensures { told m.now work.new result ≡ told_in (get_at name.now (drop root m.now)) work.old }
{
    let at = package_json::get(m, root, name)?;
    package_json::read_text(m, at, work)
}

impl<'a> Package<'a> {
    // The text of a member of the root value, where it is a string. Work ends as any bytes.
    pub fn text_field(self, name: &[u8], work: &'a mut [u8; 1024]) -> Option<&'a [u8]>
        ensures { text_in result ≡ if_text (field (json_of self.entry.manifest.now) name.now) }
    {
        let text = text_field(self.manifest, self.root, name, work)?;
        Some(package_json::text_at(self.manifest, work, Some(text)))
    }
}
