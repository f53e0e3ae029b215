// A text, the dossier that was read of it, and the page with what is said of it.
use pages::Page;
use step_searches::ReadDossier;

#[derive(Drop)]
pub struct Explanation<'a, 'b> {
    pub text: &'a [u8],
    pub dossier: ReadDossier<'b>,
    pub page: Page,
}
