//! What stands in `sds.yaml` beside values.

ghost use Rattle.std.specs.Prelude.{◌≡◌};
ghost use Rattle.svid_files.specs.Sds.{word_text};

/// The first lines of the file and of its parts, and what stands before a value.
#[derive(Clone, Copy, Drop)]
pub(crate) enum Word {
    Resources,
    Secret,
    Name,
    Certificate,
    Key,
    Trusted,
    Watched,
    Filename,
    Path,
}

/// The text of a word.
#[tactic(auto, unfolding(crate::specs::Sds::word_text))]
pub(crate) fn text_of(word: Word) -> &'static [u8]
    ensures { result.now ≡ word_text word }
{
    match word {
        Word::Resources => b"resources:\n",
        Word::Secret => {
            b"- \"@type\": type.googleapis.com/envoy.extensions.transport_sockets.tls.v3.Secret\n"
        }
        Word::Name => b"  name: ",
        Word::Certificate => b"  tls_certificate:\n    certificate_chain:\n",
        Word::Key => b"    private_key:\n",
        Word::Trusted => b"  validation_context:\n    trusted_ca:\n",
        Word::Watched => b"    watched_directory:\n",
        Word::Filename => b"      filename: ",
        Word::Path => b"      path: ",
    }
}
