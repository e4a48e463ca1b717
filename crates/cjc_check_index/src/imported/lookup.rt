//! What an imported class has by token, found at once. Whoever tests what components name of other packages calls it.
//! It knows no component.

ghost use Rattle.std.specs.Prelude.{◌≡◌, ◌<◌, ◌==◌, IfSome, get_or, length, option_and_then, slice_get, []};
ghost use Rattle.std.specs.List.{find};
ghost use Rattle.cjc_check_rules.specs.ExportFile.Supers.{classes_of};
ghost use Rattle.cjc_check_index.specs.Imported.Tokens.{AreTokens, file_starts};
ghost use Rattle.cjc_check_index.specs.Imported.Working.Lookup.{answer_by_token, answer_of_class};
ghost use Rattle.cjc_check_index.specs.Lookup.Indexed.{IsIndexed, places_of};
ghost use Rattle.cjc_check_rules.specs.Classes.{imported};
ghost use Rattle.cjc_check_rules.specs.Members.{class_has, class_has_field, has_static_field, has_static_method};
ghost use Rattle.cjc_check_rules.specs.Members.{supers_have};

use crate::imported::rows::answer;
use crate::imported::tokens::Tokens;
use crate::lookup::{Names, Want};
use cjc_check_rules::bytes::Row;
use cjc_check_rules::capread::ClassRef;
use cjc_check_rules::export_file::ExportClass;

/// The place of the first class of a token among those of its file.
fn place_in_file(classes: &[ExportClass], places: &[Option<usize>], token: u8) -> Option<usize>
    requires { places.now ≡ places_of classes.now }
    ensures found { option_and_then (slice_get classes.now) result ≡ find (λ c. c.token == token) classes.now }
    ensures inside { IfSome result (λ at. at < length classes.now) }
{
    let place = places[usize::from(token)];
    match place {
        Some(at) => { if at < classes.len() { Some(at) } else { None } }
        None => None,
    }
}

/// The place of an imported class among those of all files.
fn place_of(
    names: &Names<'_>,
    starts: &[usize],
    count: usize,
    import: u8,
    class: u8,
) -> Option<usize>
    requires ready { IsIndexed names.now }
    requires starts { starts.now ≡ file_starts 0 names.now.exports.now }
    requires count { length (classes_of names.now.exports.now) ≡ count }
    ensures { option_and_then (slice_get (classes_of names.now.exports.now)) result ≡ imported names.now.exports.now
        import class }
{
    let file = usize::from(import);
    if file >= names.exports.len() || file >= names.tokens.len() || file >= starts.len() {
        return None;
    }
    let classes = names.exports[file].classes.items();
    match place_in_file(classes, names.tokens[file].items(), class) {
        Some(at) => Some(starts[file] + at),
        None => None,
    }
}

/// A row, the empty one where there is none.
fn row_at(rows: &[Row<bool>], at: usize) -> &[bool]
    ensures { result.now ≡ get_or rows.now at [] }
{
    if at < rows.len() {
        rows[at].items()
    } else {
        &[]
    }
}

/// The answer in rows by token.
fn answer_by_token(rows: &[Row<bool>], token: u8, place: Option<usize>) -> bool
    ensures { result ≡ answer_by_token rows.now token place }
{
    match place {
        Some(at) => answer(row_at(rows, usize::from(token)), at),
        None => false,
    }
}

/// The answer in tables of classes.
fn answer_of_class(tables: &[Row<bool>], token: u8, place: Option<usize>) -> bool
    ensures { result ≡ answer_of_class tables.now token place }
{
    match place {
        Some(at) => answer(row_at(tables, at), usize::from(token)),
        None => false,
    }
}

impl Tokens {
    /// The place of an imported class among those of all files.
    fn place(&self, names: &Names<'_>, import: u8, class: u8) -> Option<usize>
        requires ready { IsIndexed names.now }
        requires kept { AreTokens names.now.exports.now self.now }
        ensures { option_and_then (slice_get (classes_of names.now.exports.now)) result ≡ imported names.now.exports.now
            import class }
    {
        let count = self.static_methods.items().len();
        place_of(names, self.starts.items(), count, import, class)
    }

    /// Whether an imported class, which is no interface, lists a virtual method of this token or inherits one.
    pub fn has_virtual(&self, names: &Names<'_>, import: u8, class: u8, token: u8) -> bool
        requires ready { IsIndexed names.now }
        requires kept { AreTokens names.now.exports.now self.now }
        ensures { result ≡ class_has names.now.exports.now (imported names.now.exports.now import class) token }
    {
        let is_class = names.names(
            Want::Class,
            ClassRef::Outside {
                package: import,
                class,
            },
        );
        let place = self.place(names, import, class);
        is_class && answer_by_token(self.virtuals.items(), token, place)
    }

    /// Whether an imported class, which is no interface, inherits a virtual method of this token.
    pub fn inherits_virtual(&self, names: &Names<'_>, import: u8, class: u8, token: u8) -> bool
        requires ready { IsIndexed names.now }
        requires kept { AreTokens names.now.exports.now self.now }
        ensures { result ≡ supers_have names.now.exports.now (imported names.now.exports.now import class) token }
    {
        let is_class = names.names(
            Want::Class,
            ClassRef::Outside {
                package: import,
                class,
            },
        );
        let place = self.place(names, import, class);
        is_class && answer_by_token(self.inherited.items(), token, place)
    }

    /// Whether an imported class lists an instance field of this token or inherits one.
    pub fn has_field(&self, names: &Names<'_>, import: u8, class: u8, token: u8) -> bool
        requires ready { IsIndexed names.now }
        requires kept { AreTokens names.now.exports.now self.now }
        ensures { result ≡ class_has_field names.now.exports.now (imported names.now.exports.now import class) token }
    {
        answer_by_token(self.fields.items(), token, self.place(names, import, class))
    }

    /// Whether an imported class lists a static method or a constructor of this token.
    pub fn has_static_method(&self, names: &Names<'_>, import: u8, class: u8, token: u8) -> bool
        requires ready { IsIndexed names.now }
        requires kept { AreTokens names.now.exports.now self.now }
        ensures { result ≡ has_static_method (imported names.now.exports.now import class) token }
    {
        answer_of_class(
            self.static_methods.items(),
            token,
            self.place(names, import, class),
        )
    }

    /// Whether an imported class lists a static field of this token.
    pub fn has_static_field(&self, names: &Names<'_>, import: u8, class: u8, token: u8) -> bool
        requires ready { IsIndexed names.now }
        requires kept { AreTokens names.now.exports.now self.now }
        ensures { result ≡ has_static_field (imported names.now.exports.now import class) token }
    {
        answer_of_class(
            self.static_fields.items(),
            token,
            self.place(names, import, class),
        )
    }
}
