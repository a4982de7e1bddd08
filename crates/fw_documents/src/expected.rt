//! What each field must be, as a message says it.
use fw_commitment::CommitmentField;
use fw_policy::PolicyField;

/// What a field of a commitment must be.
pub fn expected_in_commitment(field: CommitmentField) -> &'static str {
    match field {
        CommitmentField::Id => "\"id\" must be a text of 1 to 256 bytes, as \"cd-1\"",
        CommitmentField::Category => {
            "\"category\" must be \"Usage\", a quantity each hour, or \"Spend\", a cost each hour"
        }
        CommitmentField::Start => {
            "\"start\" must be the time of a whole hour from 1970 on, as 2024-09-01T00:00Z, in quotes"
        }
        CommitmentField::Hours => {
            "\"hours\" must be a whole number from 1 to 26304, without quotes"
        }
        CommitmentField::Capacity => { "\"capacity\" must be a number above 0, as 2.5, in quotes" }
        CommitmentField::Unit => {
            "\"unit\" must be a text of 1 to 256 bytes, the ConsumedUnit of the rows, as \"Hours\""
        }
        CommitmentField::Skus => {
            "\"skus\" must be an array of 1 to 256 texts of 1 to 256 bytes, none twice, as [\"vm\"]"
        }
        CommitmentField::Rates => {
            "\"rates\" must be a table that gives each of 1 to 256 SKUs a whole number from 1 to 1000000, as { vm = 1000000 }"
        }
        CommitmentField::SubAccount => {
            "\"sub_account\" must be a text of 1 to 256 bytes, or absent"
        }
        CommitmentField::Tags => {
            "\"tags\" must be a table of at most 256 texts, each key and each text of at most 1024 bytes"
        }
        CommitmentField::Purchase => {
            "there must be 1 to 64 [[purchase]], each with \"at\", a time from 1970 on, as 2024-09-01T00:00Z, and \"billed\", an amount of at least 0, both in quotes, and nothing else; together at most 100000000"
        }
        CommitmentField::At =>
            "\"at\" must be a time from 1970 on, as 2024-09-01T00:00Z, in quotes",
        CommitmentField::Billed => "\"billed\" must be an amount of at least 0, as 14.4, in quotes",
        CommitmentField::Unknown => {
            "a commitment has the fields id, category, start, hours, capacity, sub_account, tags and purchase, and unit and skus for \"Usage\" or rates for \"Spend\""
        }
    }
}

/// What a field of a purchase that is added to a commitment must be.
pub fn expected_in_purchase(field: CommitmentField) -> &'static str {
    match field {
        CommitmentField::Id => {
            "\"id\" must be the id of the commitment that the purchase is added to, a text of 1 to 256 bytes, as \"cd-1\""
        }
        CommitmentField::Unknown => {
            "a purchase that is added to a commitment has the fields id, at and billed"
        }
        other => expected_in_commitment(other),
    }
}

/// What a field of a policy must be.
pub fn expected_in_policy(field: PolicyField) -> &'static str {
    match field {
        PolicyField::Key => {
            "\"key\" must be a text of 1 to 1024 bytes, the tag key whose values are the groups, as \"team\""
        }
        PolicyField::Rule => {
            "there must be at most 64 [[rule]], each with either \"to\" or \"proportional\""
        }
        PolicyField::From => {
            "each [[rule]] must have \"from\", the group that gives its cost away, a text of at most 1024 bytes"
        }
        PolicyField::To => {
            "\"to\" must be a table that gives each of 1 to 256 groups a whole number from 0 to 1000000000, as { web = 3, data = 1 }"
        }
        PolicyField::Proportional => {
            "\"proportional\" must be true; leave it out where there is \"to\""
        }
        PolicyField::Unknown => {
            "a policy has the fields key and rule, and a rule has from, and to or proportional"
        }
    }
}
