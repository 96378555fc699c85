//! The text of a certificate.
ghost use Rattle.std.specs.Prelude.{◌≡◌, ◌∷◌, [], ◌++◌, true, string_bytes, Ok, OnOk, IfOk, flat_map};
ghost use Rattle.std.specs.List.{AllByRecursion};
ghost use Rattle.std.specs.Int.{w32, to_be_bytes};
ghost use Rattle.mls_lattice.specs.Name.{is_name};
ghost use Rattle.mls_certcheck.specs.Reading.{file_in, text2_in};
ghost use Rattle.mls_certcheck.specs.Spelling.{byte_text, spaced_label, labels_line, row_line, cert_text, cert2_text};
ghost use Rattle.mls_certcheck.specs.Spelling.{block_text, IsLabel, AreLabels, HasEachRow, HasText, IsCert, IsCert2};
ghost use Rattle.mls_certcheck.specs.Spelling.{IsCertificate};

use crate::cert::{Cert, Cert2, Certificate};
use mls_lattice::{Items, Label};
use std::alloc::{AllocError, Global};

#[tactic(auto, using(crate::proofs::WritingLemmas::byte_written))]
fn byte_to(text: &mut String, byte: u8) -> Result<(), AllocError>
    ensures { OnOk result (string_bytes text.new ≡ string_bytes text.old ++ byte_text byte) }
{
    write!(text, "{byte:02x}")?;
    Ok(())
}

fn cats_to(text: &mut String, cats: u32) -> Result<(), AllocError>
    ensures { OnOk result (string_bytes text.new ≡ string_bytes text.old ++ flat_map byte_text (to_be_bytes w32 cats)) }
{
    for byte in cats.to_be_bytes() {
        byte_to(text, byte)?;
    }
    Ok(())
}

fn label_to(text: &mut String, label: Label) -> Result<(), AllocError>
    ensures text { OnOk result (string_bytes text.new ≡ string_bytes text.old ++ spaced_label label) }
    ensures fits { OnOk result (IsLabel label) }
{
    let rank = label.rank;
    write!(text, " {rank}:")?;
    cats_to(text, label.cats)?;
    Ok(())
}

fn labels_to(text: &mut String, word: &str, labels: &[Label]) -> Result<(), AllocError>
    ensures text { OnOk result (string_bytes text.new ≡ string_bytes text.old ++ labels_line word.now labels.now) }
    ensures fits { OnOk result (AreLabels labels.now) }
{
    text.push_str(word)?;
    for label in labels {
        label_to(text, *label)?;
    }
    text.push_str("\n")?;
    Ok(())
}

fn cert_to(text: &mut String, cert: &Cert) -> Result<(), AllocError>
    ensures text { OnOk result (string_bytes text.new ≡ string_bytes text.old ++ cert_text cert.now) }
    ensures fits { OnOk result (IsCert cert.now) }
{
    labels_to(text, "vars", &cert.var_labels)?;
    labels_to(text, "pcs", &cert.pc_labels)?;
    Ok(())
}

impl Cert {
    /// Its one text: a line of labels for the variables, and one for the statements.
    pub fn print(&self, alloc: Global) -> Result<String, AllocError>
        ensures { IfOk result (λ s. string_bytes s ≡ cert_text self.now) }
    {
        let mut text = String::new(alloc);
        cert_to(&mut text, self)?;
        Ok(text)
    }
}

fn rows_to(text: &mut String, rows: &[Items<Label>]) -> Result<(), AllocError>
    ensures text { OnOk result (string_bytes text.new ≡ string_bytes text.old ++ flat_map row_line rows.now) }
    ensures fits { OnOk result (AllByRecursion AreLabels rows.now) }
{
    for row in rows {
        labels_to(text, "row", row)?;
    }
    Ok(())
}

fn cert2_to(text: &mut String, cert: &Cert2) -> Result<(), AllocError>
    requires { HasEachRow cert.now }
    ensures text { OnOk result (string_bytes text.new ≡ string_bytes text.old ++ cert2_text cert.now) }
    ensures fits { OnOk result (IsCert2 cert.now) }
{
    labels_to(text, "pcs", &cert.pc_labels)?;
    rows_to(text, &cert.rows)?;
    Ok(())
}

impl Cert2 {
    /// Its one text: a line of labels for the statements, and a row for each of them.
    pub fn print(&self, alloc: Global) -> Result<String, AllocError>
        requires { HasEachRow self.now }
        ensures text { IfOk result (λ s. string_bytes s ≡ cert2_text self.now) }
        // The text is read as this certificate.
        ensures again { IfOk result (λ s. text2_in (string_bytes s) ≡ Ok self.now) }
    {
        let mut text = String::new(alloc);
        cert2_to(&mut text, self)?;
        Ok(text)
    }
}

fn block_to(text: &mut String, name: &str, cert: &Certificate) -> Result<(), AllocError>
    requires { HasText cert.now }
    ensures text { OnOk result (string_bytes text.new ≡ string_bytes text.old ++ block_text (name.now, cert.now)) }
    ensures fits { OnOk result (IsCertificate cert.now) }
{
    match cert {
        Certificate::One(cert) => {
            writeln!(text, "certificate 1 {name}")?;
            cert_to(text, cert)
        }
        Certificate::Two(cert) => {
            writeln!(text, "certificate 2 {name}")?;
            cert2_to(text, cert)
        }
    }
}

/// The lines of a certificate in a file: the version and the name of its transaction, and its text.
pub fn block_print(alloc: Global, name: &str, cert: &Certificate) -> Result<String, AllocError>
    requires named { is_name name.now ≡ true }
    // One of the second version has as many rows as statements.
    requires spelled { HasText cert.now }
    ensures text { IfOk result (λ s. string_bytes s ≡ block_text (name.now, cert.now)) }
    // A file of nothing else is read as that name and that certificate.
    ensures again { IfOk result (λ s. file_in (string_bytes s) ≡ Ok ((name.now, cert.now) ∷ [])) }
{
    let mut text = String::new(alloc);
    block_to(&mut text, name, cert)?;
    Ok(text)
}
