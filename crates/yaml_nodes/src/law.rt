// The grammar of YAML texts, and reading them.
ghost use Rattle.std.specs.Prelude.{◌≡◌, Result};
ghost use Rattle.dvc_base.specs.declared.node.Node.{Node};
ghost use Rattle.dvc_base.specs.declared.node.YamlFault.{YamlFault};
ghost use Rattle.yaml_text.specs.Outcome.{Text, Outcome};
ghost use Rattle.yaml_nodes.specs.Document as reading;
ghost use Rattle.yaml_nodes.specs.DocumentGrammar as grammar;

/// For each text the grammar gives exactly one outcome, a node or the first fault with its line, and reading gives the same.
pub fn grammar_law()
    ensures some { (bytes : Text) → (o : Result Node YamlFault) × grammar.IsYaml bytes o }
    ensures one { (bytes : Text) (o p : Result Node YamlFault) → grammar.IsYaml bytes o → grammar.IsYaml bytes p → o ≡ p }
    ensures sound { (bytes : Text) (o : Result Node YamlFault) → grammar.IsYaml bytes o → reading.parse bytes ≡ o }
    ensures complete { (bytes : Text) → grammar.IsYaml bytes (reading.parse bytes) }
    // the same of the document alone
    ensures document_sound { (text : Text) (o : Outcome Node) → grammar.IsDocument text o → reading.document text ≡ o }
    ensures document_complete { (text : Text) → grammar.IsDocument text (reading.document text) }
{}
