//! That all that is written for a package is consistent: the laws on components, each of one sentence, put together.
//! For whoever promises it of a package that is converted. Nothing here runs.
ghost use Rattle.std.specs.Prelude.{ℕ, List};
ghost use Rattle.cjc_check_rules.specs.Consistent.{Consistent};
ghost use Rattle.cjc_components.specs.Components.{components_of};
ghost use Rattle.cjc_components.specs.Package.{Package};
ghost use Rattle.cjc_token_proof.specs.Components.Whole.{exports_of};
ghost use Rattle.cjc_check_proof.specs.Consistent.Premises.{HasSoundFiles, HasSoundMethods, HasSoundNames};
ghost use Rattle.cjc_check_proof.specs.Consistent.Premises.{HasSoundSizes};

use crate::classes::{
    class_refs_are_there, descriptor_describes_what_is_there, exports_are_described,
    install_methods_are_static, limits_are_kept, superclasses_are_classes,
    table_entries_are_method_starts,
};
use crate::code::{
    components_are_whole, handlers_stand_in_code, index_places_are_listed, indices_name_entries,
    jumps_land_in_code, methods_are_cut, stop_bits_end_searches,
};
use crate::tokens::{map_indices_are_tokens, pool_entries_name_what_is_there};
use cjc_token_proof::components::{
    directory_says_what_is_there, flags_say_what_is_there, imports_are_export_files,
    static_image_adds_up,
};
use cjc_token_proof::tables::classes_keep_rules;

/// The components of a package are consistent with the export files that it imports: every sentence on them is true,
/// where its files, its methods, the names in its code and its sizes are what the converter's rules promise.
pub fn components_are_consistent()
    ensures { (list : List ℕ) (p : Package) → HasSoundFiles list p → HasSoundMethods p → HasSoundNames p
        → HasSoundSizes p → Consistent (components_of p) (exports_of p) }
{
    class_refs_are_there();
    classes_keep_rules();
    components_are_whole();
    descriptor_describes_what_is_there();
    directory_says_what_is_there();
    exports_are_described();
    flags_say_what_is_there();
    handlers_stand_in_code();
    imports_are_export_files();
    index_places_are_listed();
    indices_name_entries();
    install_methods_are_static();
    jumps_land_in_code();
    limits_are_kept();
    map_indices_are_tokens();
    methods_are_cut();
    pool_entries_name_what_is_there();
    static_image_adds_up();
    stop_bits_end_searches();
    superclasses_are_classes();
    table_entries_are_method_starts();
}
