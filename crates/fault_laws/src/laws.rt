//! What holds of the definitions alone.

ghost use Rattle.std.specs.Prelude.{◌≡◌, ◌∷◌, ◌++◌, [], List, Option, ℕ, Err};
ghost use Rattle.fault_lines.specs.Lines.{AreBounded};
ghost use Rattle.fault_lines.specs.Explanations.{explained_text};
ghost use Rattle.wl_document.specs.declared.fault.DocFault.{DocFault};
ghost use Rattle.wl_document.specs.Documents.{document_state};
ghost use Rattle.wl_config.specs.declared.fault.ConfigFault.{ConfigFault};
ghost use Rattle.wl_config.specs.Configs.{configuration_of};
ghost use Rattle.wl_replay.specs.declared.fault.ScriptFault.{ScriptFault};
ghost use Rattle.wl_replay.specs.Faults.{fault_numbers};
ghost use Rattle.fault_laws.specs.Lines.{fault_line, config_line, script_line, config_numbers, script_numbers};
ghost use Rattle.fault_laws.specs.Sentences.{document_says, config_says, script_says, IsNamed};

/// The line of each fault is explained by the sentence of that very fault. Its numbers are below 2^64, as those of any value
/// of its type.
#[tactic(auto, using(crate::proofs::Sentences::document_said, crate::proofs::Sentences::config_said, crate::proofs::Sentences::script_said))]
pub fn fault_lines_are_explained()
    ensures document { (e : DocFault) → AreBounded (fault_numbers e) → explained_text (fault_line e) ≡ document_says e ++ 10 ∷ [] }
    ensures config { (e : ConfigFault) → AreBounded (config_numbers e) → explained_text (config_line e) ≡ config_says e ++ 10 ∷ [] }
    ensures script { (e : ScriptFault) → AreBounded (script_numbers e) → explained_text (script_line e) ≡ script_says e ++ 10 ∷ [] }
{}

/// The first fault of a document or a configuration is at a member that has a name.
#[tactic(auto, using(crate::proofs::NamedDocuments::fault_named, crate::proofs::NamedConfigs::fault_named))]
pub fn places_of_faults_have_names()
    ensures document { (own : Option (List ℕ)) (text : List ℕ) (e : DocFault) → document_state own text ≡ Err e →
        AreBounded (fault_numbers e) → IsNamed (document_says e) }
    ensures config { (text : List ℕ) (e : ConfigFault) → configuration_of text ≡ Err e →
        AreBounded (config_numbers e) → IsNamed (config_says e) }
{}
