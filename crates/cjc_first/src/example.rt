//! A worked package: what is written for it and how it runs, by computation.

ghost use Rattle.std.specs.Prelude.{◌≡◌, [], ◌∷◌, Some, Ok, negsuc};
ghost use Rattle.cjc_code.specs.Decoded.{decoding};
ghost use Rattle.cjc_script.specs.declared.report.Note.TheVariants.{Result as result_note};
ghost use Rattle.cjc_script.specs.declared.report.Outcome.TheVariants.{Done as done};
ghost use Rattle.cjc_script.specs.declared.value.Value.TheVariants.{Num as number};
ghost use Rattle.cjc_first.specs.FirstForm.{IsFirstForm, ops_of};
ghost use Rattle.cjc_first.specs.Converted.{converted, sizes, tree_for};
ghost use Rattle.cjc_first.specs.BehaveAlike.{by_name, by_token};
ghost use Rattle.cjc_first.specs.Example.{example_line, example_lang, example_root, example_class, example_method, example_code, example_insns, example_script, example_export, example_acts, example_report};

/// The example is of the form, and its method's header and code are six bytes.
pub fn example_is_converted()
    ensures decoded { decoding example_class example_method example_code ≡ Ok example_insns }
    ensures method { (form : IsFirstForm example_line example_class) × ((converted example_line example_lang example_root example_class form).method ≡ Some (record { handlers = []; methods = 0x02 ∷ 0x10 ∷ 0x1C ∷ 0x04 ∷ 0x41 ∷ 0x78 ∷ [] })) }
    ensures sizes { sizes example_line example_lang.aid 1 6 ≡ 17 ∷ 33 ∷ 0 ∷ 11 ∷ 2 ∷ 12 ∷ 7 ∷ 10 ∷ 4 ∷ 7 ∷ 26 ∷ 0 ∷ [] }
{}

/// f(S)S of 32767 is -32768 by name in five instructions, and by token in four.
pub fn example_runs()
    ensures named { by_name (example_class ∷ []) [] example_script 10 ≡ record { notes = result_note (Some (number (negsuc 32767))) ∷ []; statics = []; heap = []; outcome = done; spent = 5 } }
    ensures by_token { by_token (example_class ∷ []) [] (tree_for example_line example_lang example_root 1 example_code (ops_of example_insns)) example_script 10 ≡ record { notes = result_note (Some (number (negsuc 32767))) ∷ []; statics = []; heap = []; outcome = done; spent = 4 } }
{}

/// Acts change both heaps alike, and an act that does not fit ends both runs.
pub fn example_acts_run()
    ensures named { by_name (example_class ∷ []) (example_export ∷ []) example_acts 10 ≡ example_report 5 }
    ensures by_token { by_token (example_class ∷ []) (example_export ∷ []) (tree_for example_line example_lang example_root 1 example_code (ops_of example_insns)) example_acts 10 ≡ example_report 4 }
{}
